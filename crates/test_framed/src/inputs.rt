//! Inputs in memory, of which all bytes are known.

ghost use Rattle.std.specs.Prelude.{◌≡◌};
ghost use Rattle.std.specs.Option.{option_map};
ghost use Rattle.test_framed.specs.Named.{bytes_at};

use document_framing::InputFiles;
use std::io;
use std::io::ErrorKind;

/// Files in memory, each with its path, and a standard input.
#[derive(Clone, Copy, Drop)]
pub struct MemInputs<'a> {
    pub files: &'a [(&'a str, &'a [u8])],
    pub standard: &'a [u8],
}

// The bytes of the first file of a path.
fn file_at<'a>(files: &[(&'a str, &'a [u8])], path: &str) -> Option<&'a [u8]>
    ensures { option_map (λ bytes. bytes.now) result ≡ bytes_at files.now path.now }
{
    files.iter().find(|file| file.0 == path).map(|file| file.1)
}

impl<'a> InputFiles for MemInputs<'a> {
    ghost use Rattle.std.specs.Prelude.{Some};
    ghost use Rattle.test_framed.specs.Named.{readable};

    type Input = &'a [u8];

    ghost holds = { λ inputs. Some (readable inputs.files.now inputs.standard.now) };

    fn open(&self, path: &str) -> io::Result<&'a [u8]> {
        match file_at(self.files, path) {
            Some(bytes) => Ok(bytes),
            None => Err(ErrorKind::NotFound.into()),
        }
    }

    fn standard_input(&mut self) -> &'a [u8] {
        let standard = self.standard;
        self.standard = b"";
        standard
    }

    fn is_plain(&self, _path: &str) -> bool {
        true
    }
}
