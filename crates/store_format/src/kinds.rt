//! How blocks are packed: not at all. A kind is the footer's byte for it.

ghost use Rattle.std.specs.Prelude.{◌≡◌, ◌≢◌, IfOk, IfErr};
ghost use Rattle.store_format.specs.Footer.{kind_of};

use store_base::DecodeFault;

/// How a writer packs blocks.
#[derive(Clone, Copy, Debug, PartialEq, Eq, Default)]
pub enum Compressor {
    #[default]
    None,
}

/// How a reader unpacks blocks.
#[derive(Clone, Copy, Debug, PartialEq, Eq)]
pub enum Decompressor {
    None,
}

impl From<Compressor> for Decompressor {
    ghost use Rattle.std.specs.Prelude.{◌≡◌};
    ghost use Rattle.store_format.specs.Footer.{unpacks};

    ghost from_gives = { λ compressor decompressor. decompressor ≡ unpacks compressor };

    fn from(compressor: Compressor) -> Decompressor {
        match compressor {
            Compressor::None => Decompressor::None,
        }
    }
}

impl Decompressor {
    /// The kind, as a footer has it.
    pub fn get_id(&self) -> u8
        ensures { result ≡ kind_of self.now }
    {
        match self {
            Decompressor::None => 0,
        }
    }

    /// The decompressor of this kind, or `Kind` with the number.
    pub fn from_id(id: u8) -> Result<Decompressor, DecodeFault>
        ensures ok { IfOk result (λ decompressor. kind_of decompressor ≡ id) }
        ensures err { IfErr result (λ fault. (fault ≡ DecodeFault.Kind id) × (id ≢ 0)) }
    {
        match id {
            0 => Ok(Decompressor::None),
            kind => Err(DecodeFault::Kind(kind)),
        }
    }
}
