//! A document that no schema has bytes for.

ghost use Rattle.std.specs.Prelude.{None};

use docstore::{DocFault, Document, Schema};
use std::test::Fail;

/// A document that appends two bytes and then returns an error.
#[derive(Drop)]
struct Refusing;

impl Document for Refusing {
    ghost doc_bytes = { λ _ _. None };

    fn serialize_doc(&self, _schema: &Schema, out: &mut Vec<u8>) -> Result<(), DocFault> {
        let _ = out.extend_from_slice(&[0xff, 0xff]);
        Err(DocFault::Refused)
    }
}

// That it is proved shows that a document may leave bytes where it returns an error.
#[test]
fn a_document_that_fails_may_leave_bytes(rt: HostRuntime) -> Result<(), Fail> {
    let mut out = Vec::from_slice(rt.alloc(), b"kept")?;
    let written = Refusing.serialize_doc(&Schema::with_fields(0), &mut out);
    assert!(rt; written == Err(DocFault::Refused) && out.as_slice() == b"kept\xff\xff".as_slice());
    Ok(())
}
