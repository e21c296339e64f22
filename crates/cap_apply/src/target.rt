//! Whether the columns of a table are those of a group.
ghost use Rattle.std.specs.Prelude.{◌≡◌};
ghost use Rattle.cap_row.specs.Schema.{has_key};
ghost use Rattle.cap_apply.specs.Target.{columns_fit};

pub(crate) fn columns_fit(flags: &[bool], schema: &[bool]) -> bool
    ensures { result ≡ columns_fit flags.now schema.now }
{
    if schema.len() < flags.len() {
        return false;
    }
    let (own, further) = schema.split_at(flags.len());
    flags == own && !has_key(further)
}

fn has_key(flags: &[bool]) -> bool
    ensures { result ≡ has_key flags.now }
{
    flags.iter().any(|key| *key)
}
