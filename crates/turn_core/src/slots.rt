ghost use Rattle.std.specs.Prelude.{◌≡◌, ◌+◌, ◌<◌, length, replicate, get_or, set, not, Option, Some, None, IfOk, position};
ghost use Rattle.turn_core.specs.Groups.{same, among, meet};
ghost use Rattle.turn_core.specs.Slots.{is_free, meets_slot, taken, advanced, HasNext};

use fs_names::GroupId;
use std::alloc::{AllocError, Global};
use std::marker::Model;

/// How many transactions may be open.
const SLOTS: usize = 8;

/// The groups that a transaction names.
#[derive(Debug, Drop)]
pub struct Groups {
    ids: Vec<GroupId>,
}

impl Model for Groups {
    ghost use Rattle.std.specs.Prelude.{List};
    ghost use Rattle.fs_names.specs.declared.coll.GroupId.{GroupId};

    ghost Value = { List GroupId };

    ghost view = { λ g. g.ids.items };
}

impl Groups {
    pub fn from_vec(ids: Vec<GroupId>) -> Groups
        ensures { result ≡ ids.items }
    {
        Groups { ids }
    }

    pub fn slice(&self) -> &[GroupId]
        ensures { result.now ≡ self.now }
    {
        &self.ids
    }

    pub fn into_vec(self) -> Vec<GroupId>
        ensures { result.items ≡ self }
    {
        self.ids
    }
}

fn same_group(a: &GroupId, b: &GroupId) -> bool
    ensures { result ≡ same a.now b.now }
{
    a == b
}

fn is_among(groups: &[GroupId], group: &GroupId) -> bool
    ensures { result ≡ among groups.now group.now }
{
    groups.iter().any(|other| same_group(group, other))
}

/// Whether some group stands in both.
fn meets(front: &[GroupId], groups: &[GroupId]) -> bool
    ensures { result ≡ meet front.now groups.now }
{
    front.iter().any(|group| is_among(groups, group))
}

/// A started transaction.
#[derive(Debug, Drop)]
pub struct Slot {
    /// Its number.
    pub seq: u64,
    /// The place of its next operation.
    pub next: u32,
    /// How many operations it has.
    pub ops: u32,
    pub groups: Groups,
}

/// The slots for started transactions, of which a store has eight.
#[derive(Debug, Drop)]
pub struct Slots {
    places: Vec<Option<Slot>>,
}

impl Model for Slots {
    ghost use Rattle.std.specs.Prelude.{List, Option};
    ghost use Rattle.turn_core.specs.declared.slots.Slot.{Slot};

    ghost Value = { List (Option Slot) };

    ghost view = { λ s. s.places.items };
}

fn is_slot_free(slot: &Option<Slot>) -> bool
    ensures { result ≡ is_free slot.now }
{
    slot.is_none()
}

fn meets_open(front: &[GroupId], slot: &Option<Slot>) -> bool
    ensures { result ≡ meets_slot front.now slot.now }
{
    match slot {
        Some(held) => meets(front, held.groups.slice()),
        None => false,
    }
}

/// A slot after its next operation.
fn advance(slot: Option<Slot>) -> Option<Slot>
    requires { HasNext slot }
    ensures { result ≡ advanced slot }
{
    match slot {
        None => None,
        Some(held) => {
            let next = held.next + 1;
            if next < held.ops {
                Some(Slot {
                    seq: held.seq,
                    next,
                    ops: held.ops,
                    groups: held.groups,
                })
            } else {
                None
            }
        }
    }
}

impl Slots {
    /// Eight free slots.
    pub fn free(alloc: Global) -> Result<Slots, AllocError>
        ensures { IfOk result (λ slots. slots ≡ replicate 8 None) }
    {
        let mut places = Vec::new(alloc);
        for _ in 0..SLOTS {
            places.push(None)?;
        }
        Ok(Slots { places })
    }

    pub fn from_vec(places: Vec<Option<Slot>>) -> Slots
        ensures { result ≡ places.items }
    {
        Slots { places }
    }

    pub fn slice(&self) -> &[Option<Slot>]
        ensures { result.now ≡ self.now }
    {
        &self.places
    }

    pub fn into_vec(self) -> Vec<Option<Slot>>
        ensures { result.items ≡ self }
    {
        self.places
    }

    /// The lowest free slot.
    pub fn first_free(&self) -> Option<usize>
        ensures { result ≡ position is_free self.now }
    {
        self.places.iter().position(|slot| is_slot_free(slot))
    }

    /// The lowest slot whose transaction names one of these groups.
    pub fn first_conflict(&self, front: &[GroupId]) -> Option<usize>
        ensures { result ≡ position (meets_slot front.now) self.now }
    {
        self.places.iter().position(|slot| meets_open(front, slot))
    }

    /// How many are taken.
    pub fn open_count(&self) -> usize
        ensures { result ≡ taken self.now }
    {
        self.places
            .iter()
            .filter(|slot| !is_slot_free(slot))
            .count()
    }

    /// Whether a slot is taken.
    pub fn is_open(&self, place: usize) -> bool
        requires { place < length self.now }
        ensures { result ≡ not (is_free (get_or self.now place None)) }
    {
        self.places[place].is_some()
    }

    pub(crate) fn put(&mut self, place: usize, slot: Option<Slot>)
        requires { place < length self.old }
        ensures { self.new ≡ set self.old place slot }
    {
        self.places[place] = slot;
    }

    /// Counts an operation of a slot as done; after its last one the slot is free.
    pub(crate) fn advance(&mut self, place: usize)
        requires inside { place < length self.old }
        requires unfinished { HasNext (get_or self.old place None) }
        ensures { self.new ≡ set self.old place (advanced (get_or self.old place None)) }
    {
        let slot = self.places[place].take();
        self.places[place] = advance(slot);
    }
}
