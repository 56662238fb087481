//! Which fields a document may have.

ghost use Rattle.std.specs.Prelude.{◌≡◌, nat_lt};

use std::marker::Model;

/// A field, by its number.
#[derive(Clone, Copy, Debug, PartialEq, Eq)]
pub struct Field(u32);

/// Clauses see its number.
impl Model for Field {
    ghost use Rattle.std.specs.Prelude.{ℕ};

    ghost Value = { ℕ };

    ghost view = { λ f. f.0 };

    ghost inverse = { λ n. record { 0 = n } };
}

impl Field {
    /// The field of this number.
    pub fn from_field_id(field_id: u32) -> Field
        ensures { result ≡ field_id }
    {
        Field(field_id)
    }

    /// The field's number.
    pub fn field_id(&self) -> u32
        ensures { result ≡ self.now }
    {
        self.0
    }
}

/// The fields that a document may have.
#[derive(Drop)]
pub struct Schema {
    num_fields: u32,
}

/// Clauses see how many fields there are: those numbered below it.
impl Model for Schema {
    ghost use Rattle.std.specs.Prelude.{ℕ};

    ghost Value = { ℕ };

    ghost view = { λ s. s.num_fields };
}

impl Schema {
    /// The fields numbered below `num_fields`.
    pub fn with_fields(num_fields: u32) -> Schema
        ensures { result ≡ num_fields }
    {
        Schema { num_fields }
    }

    /// Whether the field is one of the schema's.
    pub fn has_field(&self, field: Field) -> bool
        ensures { result ≡ nat_lt field self.now }
    {
        field.0 < self.num_fields
    }
}
