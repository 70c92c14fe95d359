// The hashed subdirectories in a listing.
ghost use Rattle.std.specs.Prelude.{◌≡◌, ◌≢◌, ◌++◌, ◌∷◌, [], ℕ, codes, IfOk, OnOk, IsTrue, MatchOption, ◌↔◌};
ghost use Rattle.lfn_index.specs.Subdirs.{IsSubdirName, IsUpperDigit, HasDigit, AddsDigit, AreDigits};

use std::alloc::{AllocError, Global};
use tree_api::{Entry, Kind};

fn after_dir(step: &[u8]) -> Option<&[u8]>
    ensures { MatchOption result ((rest : _) → step.now ≢ codes "DIR_" ++ rest) (λ rest. step.now ≡ codes "DIR_" ++ rest.now) }
{
    step.strip_prefix(b"DIR_")
}

fn is_upper_digit(byte: u8) -> bool
    ensures { IsTrue result ↔ IsUpperDigit byte }
{
    byte.is_ascii_digit() || (byte >= b'A' && byte <= b'F')
}

/// Whether a hashed subdirectory has this name.
pub(crate) fn is_subdir_name(step: &[u8]) -> bool
    ensures { IsTrue result ↔ IsSubdirName step.now }
{
    let Some(rest) = after_dir(step) else {
        return false;
    };
    rest.len() == 1 && is_upper_digit(rest[0])
}

/// The digit in the name of a hashed subdirectory.
fn subdir_digit(step: &[u8]) -> Option<u8>
    ensures { MatchOption result ((digit : ℕ) → IsUpperDigit digit → step.now ≢ codes "DIR_" ++ digit ∷ []) (λ digit. IsUpperDigit digit × (step.now ≡ codes "DIR_" ++ digit ∷ [])) }
{
    if !is_subdir_name(step) {
        return None;
    }
    step.last().copied()
}

/// The digit of an entry that is a hashed subdirectory.
fn entry_digit(entry: &Entry) -> Option<u8>
    ensures { MatchOption result ((digit : ℕ) → HasDigit entry.now digit → ⊥) (λ digit. HasDigit entry.now digit) }
{
    if entry.step.steps() != 1 {
        return None;
    }
    if entry.kind != Kind::Dir {
        return None;
    }
    subdir_digit(entry.step.step(0))
}

/// Adds the digit of an entry that is a hashed subdirectory.
fn add_digit(digits: &mut Vec<u8>, entry: &Entry) -> Result<(), AllocError>
    ensures { OnOk result (AddsDigit entry.now digits.old.items digits.new.items) }
{
    let Some(digit) = entry_digit(entry) else {
        return Ok(());
    };
    digits.push(digit)?;
    Ok(())
}

/// The digits of the entries that are hashed subdirectories.
pub(crate) fn subdir_digits(alloc: Global, entries: &[Entry]) -> Result<Vec<u8>, AllocError>
    ensures { IfOk result (λ digits. AreDigits entries.now digits.items) }
{
    let mut digits = Vec::new(alloc);
    for entry in entries {
        add_digit(&mut digits, entry)?;
    }
    Ok(digits)
}
