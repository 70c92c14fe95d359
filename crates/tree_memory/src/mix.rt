// Nodes whose cells are each as they were or as they are now.
ghost use Rattle.std.specs.Prelude.{◌≡◌, ◌⊎◌, ◌<◌, ◌≤◌, ◌==◌, ℕ, true, false, length, slice_index, OnOk, if◌then◌else◌};
ghost use Rattle.tree_api.specs.Tree.{Mix};
ghost use Rattle.draws.specs.State.{next_state};
ghost use Rattle.tree_memory.specs.Nodes.{version};
ghost use Rattle.tree_memory.specs.Drawn.{takes};

use crate::node::{Change, Node, lengthen};
use draws::Draws;
use std::alloc::AllocError;
use tree_api::Bytes;

/// Whether an image takes what is new.
#[derive(Drop)]
pub struct Chooser {
    oldest: bool,
    draws: Draws,
}

impl Chooser {
    pub fn new(choice: u64) -> Chooser
        ensures { result.oldest ≡ (choice == 1) }
    {
        Chooser {
            oldest: choice == 1,
            draws: Draws::new(choice),
        }
    }

    /// Never, where the oldest is chosen, and else where the next number is 2^31 or more.
    pub fn takes(&mut self) -> bool
        ensures oldest { self.new.oldest ≡ self.old.oldest }
        ensures draws { self.new.draws ≡ next_state self.old.draws }
        ensures drawn { result ≡ takes self.old.oldest self.old.draws }
        ensures never { self.old.oldest ≡ true → result ≡ false }
    {
        let drawn = self.draws.draw() >> 31 == 1;
        drawn && !self.oldest
    }

    fn byte(&mut self, old: u8, now: u8) -> u8
        ensures one { (result ≡ old) ⊎ (result ≡ now) }
        ensures drawn { result ≡ if takes self.old.oldest self.old.draws then now else old }
        ensures oldest { self.new.oldest ≡ self.old.oldest }
        ensures kept { self.old.oldest ≡ true → result ≡ old }
    {
        if self.takes() { now } else { old }
    }
}

impl Node {
    /// What a change touched is as in this node or as in the one that has changed.
    pub fn mix(
        &mut self,
        now: &Node,
        change: &Change,
        chooser: &mut Chooser,
    ) -> Result<(), AllocError>
        ensures mixed { OnOk result (Mix (version self.old) (version now.now) (version self.new)) }
        ensures oldest { chooser.new.oldest ≡ chooser.old.oldest }
        ensures kept { chooser.old.oldest ≡ true → version self.new ≡ version self.old }
    {
        match change {
            Change::Write { at, bytes } => {
                let first = *at as usize;
                let end = first.saturating_add(bytes.len());
                mix_bytes(&mut self.bytes, &now.bytes, first, end, chooser)
            }
            Change::Cut { .. } => { mix_bytes(&mut self.bytes, &now.bytes, 0, usize::MAX, chooser) }
            Change::Attr { name, .. } => self.mix_attr(now, name, chooser),
        }
    }

    fn mix_attr(
        &mut self,
        now: &Node,
        name: &Bytes,
        chooser: &mut Chooser,
    ) -> Result<(), AllocError>
        ensures mixed { OnOk result (Mix (version self.old) (version now.now) (version self.new)) }
        ensures left { takes chooser.old.oldest chooser.old.draws ≡ false → version self.new ≡ version self.old }
        ensures oldest { chooser.new.oldest ≡ chooser.old.oldest }
        ensures kept { chooser.old.oldest ≡ true → version self.new ≡ version self.old }
    {
        if !chooser.takes() {
            return Ok(());
        }
        match now.attrs.get(name) {
            Some(value) => {
                let value = Some(value.clone()?);
                self.set_attr(name, &value)
            }
            None => self.set_attr(name, &None),
        }
    }
}

// The length, and each byte from one place to another. Past its end `now` has zeros.
fn mix_bytes(
    bytes: &mut Vec<u8>,
    now: &[u8],
    first: usize,
    end: usize,
    chooser: &mut Chooser,
) -> Result<(), AllocError>
    ensures len { OnOk result ((length bytes.new.items ≡ length bytes.old.items) ⊎ (length bytes.new.items ≡ length now.now)) }
    ensures byte { OnOk result ((i : ℕ) → i < length bytes.new.items → (slice_index bytes.new.items i ≡ slice_index bytes.old.items i) ⊎ (slice_index bytes.new.items i ≡ slice_index now.now i)) }
    ensures oldest { chooser.new.oldest ≡ chooser.old.oldest }
    ensures kept { chooser.old.oldest ≡ true → bytes.new.items ≡ bytes.old.items }
{
    mix_len(bytes, now.len(), chooser)?;
    let end = end.min(bytes.len());
    mix_slice(bytes, now, first, end, chooser);
    Ok(())
}

fn mix_len(bytes: &mut Vec<u8>, len: usize, chooser: &mut Chooser) -> Result<(), AllocError>
    ensures len { OnOk result ((length bytes.new.items ≡ length bytes.old.items) ⊎ (length bytes.new.items ≡ len)) }
    ensures byte { OnOk result ((i : ℕ) → i < length bytes.new.items → slice_index bytes.new.items i ≡ slice_index bytes.old.items i) }
    ensures left { takes chooser.old.oldest chooser.old.draws ≡ false → bytes.new.items ≡ bytes.old.items }
    ensures oldest { chooser.new.oldest ≡ chooser.old.oldest }
    ensures kept { chooser.old.oldest ≡ true → bytes.new.items ≡ bytes.old.items }
{
    if !chooser.takes() {
        return Ok(());
    }
    lengthen(bytes, len)?;
    bytes.truncate(len);
    Ok(())
}

// A byte, or 0 past the end.
#[tactic(auto, using(std::proofs::lemmas::List::get_or_past))]
fn byte_at(bytes: &[u8], at: usize) -> u8
    ensures { result ≡ slice_index bytes.now at }
{
    if at < bytes.len() { bytes[at] } else { 0 }
}

fn mix_slice(bytes: &mut [u8], now: &[u8], first: usize, end: usize, chooser: &mut Chooser)
    requires { end ≤ length bytes.old }
    ensures byte { (i : ℕ) → (slice_index bytes.new i ≡ slice_index bytes.old i) ⊎ (slice_index bytes.new i ≡ slice_index now.now i) }
    ensures oldest { chooser.new.oldest ≡ chooser.old.oldest }
    ensures kept { chooser.old.oldest ≡ true → bytes.new ≡ bytes.old }
{
    for i in first..end {
        bytes[i] = chooser.byte(bytes[i], byte_at(now, i));
    }
}
