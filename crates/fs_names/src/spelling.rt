//! The bytes of names, keys and namespaces, written unit by unit.
ghost use Rattle.std.specs.Prelude.{◌≡◌, ◌≤◌, ◌++◌, length, OnOk};
ghost use Rattle.fs_names.specs.Text.{field_text, name_text};

use crate::unit::Unit;
use std::alloc::AllocError;

/// How many bytes the spelling of these has.
pub(crate) fn field_len(bytes: &[u8]) -> usize
    requires { length bytes.now ≤ 1024 }
    ensures { result ≤ 4096 }
{
    let mut len = 0usize;
    for byte in bytes {
        len += Unit::of(*byte).slice().len();
    }
    len
}

/// How many bytes the spelling of a name has.
pub(crate) fn name_len(name: &[u8]) -> usize
    requires { length name.now ≤ 1024 }
    ensures { result ≤ 4098 }
{
    if name.starts_with(b"DIR_") {
        return 2 + field_len(&name[4..]);
    }
    if name.starts_with(b".") {
        return 2 + field_len(&name[1..]);
    }
    field_len(name)
}

/// Appends the spelling of a key or a namespace.
pub(crate) fn spell_field(out: &mut Vec<u8>, bytes: &[u8]) -> Result<(), AllocError>
    ensures { OnOk result (out.new.items ≡ out.old.items ++ field_text bytes.now) }
{
    for byte in bytes {
        out.extend_from_slice(Unit::of(*byte).slice())?;
    }
    Ok(())
}

/// Appends the spelling of a name.
pub(crate) fn spell_name(out: &mut Vec<u8>, name: &[u8]) -> Result<(), AllocError>
    ensures { OnOk result (out.new.items ≡ out.old.items ++ name_text name.now) }
{
    if name.starts_with(b"DIR_") {
        out.extend_from_slice(b"\\d")?;
        return spell_field(out, &name[4..]);
    }
    if name.starts_with(b".") {
        out.extend_from_slice(b"\\.")?;
        return spell_field(out, &name[1..]);
    }
    spell_field(out, name)
}
