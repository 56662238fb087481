//! How many documents have to come.

ghost use Rattle.std.specs.Prelude.{◌≡◌, ◌≢◌, Some, IfErr, IfSome, OnOk};

/// Another number of documents came than was expected.
#[derive(Clone, Copy)]
pub struct OtherCount {
    pub expected: u64,
    pub came: u64,
}

/// Fails if another number of documents came than was expected.
pub fn check_count(expected: Option<u64>, came: u64) -> Result<(), OtherCount>
    ensures counted { OnOk result (IfSome expected (λ count. came ≡ count)) }
    ensures other { IfErr result (λ e. (expected ≡ Some e.expected) × (e.came ≡ came) × (came ≢ e.expected)) }
{
    match expected {
        Some(expected) if expected != came => Err(OtherCount { expected, came }),
        _ => Ok(()),
    }
}
