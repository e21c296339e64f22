//! The operations of changes.

ghost use Rattle.std.specs.Prelude.{◌≡◌, true, false, IfSome, IfNone};
ghost use Rattle.cap_changes.specs.Operation.{is_operation};
ghost use Rattle.cap_changes.specs.Operation.{operation_byte};

/// What a change does to a row.
#[derive(Clone, Copy)]
pub enum Operation {
    /// Inserts a row.
    Insert,
    /// Sets fields of a row.
    Update,
    /// Deletes a row.
    Delete,
}

impl Operation {
    /// The operation of this byte, `None` where it begins no change.
    pub fn of(byte: u8) -> Option<Self>
        ensures byte { IfSome result (λ operation. byte ≡ operation_byte operation) }
        ensures some { IfSome result (λ _. is_operation byte ≡ true) }
        ensures none { IfNone result (is_operation byte ≡ false) }
    {
        match byte {
            0x12 => Some(Operation::Insert),
            0x17 => Some(Operation::Update),
            0x09 => Some(Operation::Delete),
            _ => None,
        }
    }

    /// The byte that begins a change of this operation.
    pub fn byte(self) -> u8
        ensures { result ≡ operation_byte self }
    {
        match self {
            Operation::Insert => 0x12,
            Operation::Update => 0x17,
            Operation::Delete => 0x09,
        }
    }
}
