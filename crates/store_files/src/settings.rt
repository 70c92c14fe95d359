// The text of settings.
ghost use Rattle.std.specs.Prelude.{◌≡◌, ◌≢◌, List, ℕ, IfOk, MatchOption};
ghost use Rattle.store_files.specs.Lines.{NoNewline};
ghost use Rattle.store_files.specs.Texts.{InLimits, IsSpelled, four_lines, settings_text, mode_word};
ghost use Rattle.fs_names.specs.declared.settings.Settings.{Settings};

use crate::line::line;
use crate::values::{merge, mode, within};
use fs_names::{Mode, Settings};
use std::alloc::{AllocError, Global};

fn mode_word(mode: Mode) -> &'static str
    ensures { result.now ≡ mode_word mode }
{
    match mode {
        Mode::WriteAhead => "wal",
        Mode::Parallel => "parallel",
    }
}

/// The text of settings.
#[tactic(auto, unfolding(crate::specs::Texts::settings_text))]
pub fn settings_text(alloc: Global, set: &Settings) -> Result<Vec<u8>, AllocError>
    ensures { IfOk result (λ text. text.items ≡ settings_text set.now) }
{
    let (merge, split, lfn) = (set.merge, set.split, set.lfn);
    let mode = mode_word(set.mode);
    let text = format!(in alloc; "merge {merge}\nsplit {split}\nlfn {lfn}\nmode {mode}\n")?;
    Vec::from_slice(alloc, text.as_bytes())
}

type Values<'a> = (&'a [u8], &'a [u8], &'a [u8], &'a [u8]);

// The values of the four lines.
fn values(text: &[u8]) -> Option<Values<'_>>
    ensures { MatchOption result
        ((m s l d : List ℕ) → NoNewline m → NoNewline s → NoNewline l → NoNewline d → text.now ≢ four_lines m s l d)
        (λ v. NoNewline v.0.now × NoNewline v.1.now × NoNewline v.2.now × NoNewline v.3.now × (text.now ≡ four_lines v.0.now v.1.now v.2.now v.3.now)) }
{
    let (merge, rest) = line(text, b"merge ")?;
    let (split, rest) = line(rest, b"split ")?;
    let (lfn, rest) = line(rest, b"lfn ")?;
    let (mode, rest) = line(rest, b"mode ")?;
    if rest.is_empty() {
        Some((merge, split, lfn, mode))
    } else {
        None
    }
}

/// The settings that a text spells, where they keep the limits.
pub fn settings_of(text: &[u8]) -> Option<Settings>
    ensures { IsSpelled settings_text InLimits text.now result }
{
    let (merge_text, split_text, lfn_text, mode_text) = values(text)?;
    let merge = merge(merge_text)?;
    let split = within(split_text, 100)?;
    let lfn = within(lfn_text, 40)?;
    let mode = mode(mode_text)?;
    Some(Settings {
        merge,
        split: u32::from(split),
        lfn: lfn as u8,
        mode,
    })
}
