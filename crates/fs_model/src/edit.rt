//! What an operation does to one object.
ghost use Rattle.std.specs.Prelude.{◌≡◌, ◌+◌, ◌<◌, ◌^◌, length, OnOk, OnErr, IfOk};
ghost use Rattle.fs_model.specs.Objects.{empty_object};
ghost use Rattle.fs_model.specs.Plain.{edited, object_of, IsInReach};
ghost use Rattle.fs_model.specs.Rows.{with_omap};

use crate::{Blob, Pair, PairMap, PlainObject};
use std::alloc::{AllocError, Global};
use std::marker::Model;

// A change of one object. Places and lengths count bytes.
#[derive(Drop)]
pub(crate) enum Edit<'a> {
    Touch,
    Write {
        at: u64,
        bytes: &'a [u8],
    },
    Zero {
        at: u64,
        len: u64,
    },
    Truncate {
        len: u64,
    },
    SetAttrs {
        pairs: &'a [Pair],
    },
    RmAttr {
        name: &'a Blob,
    },
    RmAttrs,
    OmapClear,
    OmapSet {
        header: &'a Option<Blob>,
        pairs: &'a [Pair],
    },
    OmapRemove {
        keys: &'a [Blob],
    },
    OmapRange {
        from: &'a Blob,
        to: &'a Blob,
    },
}

// An object, which contracts see as what it stands for.
#[derive(Drop)]
pub(crate) struct Kept {
    object: PlainObject,
}

impl Model for Kept {
    ghost use Rattle.fs_model.specs.Objects.{Object, object_code};

    ghost Value = { Object };

    ghost coded = { object_code };

    ghost use Rattle.fs_model.specs.Plain.{object_of};

    ghost view = { λ k. object_of k.object };
}

impl Kept {
    pub(crate) fn new(alloc: Global) -> Kept
        ensures { result ≡ empty_object }
    {
        Kept {
            object: PlainObject {
                bytes: Blob::from_vec(Vec::new(alloc)),
                attrs: PairMap::new(alloc),
                header: Blob::from_vec(Vec::new(alloc)),
                pairs: PairMap::new(alloc),
            },
        }
    }

    pub(crate) fn object(&self) -> &PlainObject
        ensures { object_of result.now ≡ self.now }
    {
        &self.object
    }

    pub(crate) fn copy(&self) -> Result<Kept, AllocError>
        ensures { IfOk result (λ copy. copy ≡ self.now) }
    {
        Ok(Kept {
            object: PlainObject {
                bytes: self.object.bytes.clone()?,
                attrs: self.object.attrs.copy()?,
                header: self.object.header.clone()?,
                pairs: self.object.pairs.copy()?,
            },
        })
    }

    pub(crate) fn set(&mut self, kept: Kept)
        ensures { self.new ≡ kept }
    {
        *self = kept;
    }

    // Does an edit in place. Where memory runs out, the object stays as it was.
    pub(crate) fn edit(&mut self, alloc: Global, edit: &Edit) -> Result<(), AllocError>
        requires { IsInReach edit.now }
        ensures ok { OnOk result (self.new ≡ edited self.old edit.now) }
        ensures err { OnErr result (self.new ≡ self.old) }
    {
        let object = &mut self.object;
        match edit {
            Edit::Touch => Ok(()),
            Edit::Write { at, bytes } => object.bytes.write_at(*at as usize, bytes),
            Edit::Zero { at, len } => object.bytes.zero_at(*at as usize, *len as usize),
            Edit::Truncate { len } => object.bytes.resize(*len as usize),
            Edit::SetAttrs { pairs } => object.attrs.set_all(alloc, pairs),
            Edit::RmAttr { name } => Ok(object.attrs.remove(name)),
            Edit::RmAttrs => Ok(object.attrs.clear()),
            Edit::OmapClear => {
                object.header = Blob::from_vec(Vec::new(alloc));
                Ok(object.pairs.clear())
            }
            Edit::OmapSet { header, pairs } => self.set_omap(alloc, header, pairs),
            Edit::OmapRemove { keys } => Ok(object.pairs.remove_all(keys)),
            Edit::OmapRange { from, to } => Ok(object.pairs.remove_range(from, to)),
        }
    }

    // Sets the omap header, where one is given, and omap pairs.
    fn set_omap(
        &mut self,
        alloc: Global,
        header: &Option<Blob>,
        pairs: &[Pair],
    ) -> Result<(), AllocError>
        ensures ok { OnOk result (self.new ≡ with_omap self.old header.now pairs.now) }
        ensures err { OnErr result (self.new ≡ self.old) }
    {
        match header {
            None => self.object.pairs.set_all(alloc, pairs),
            Some(header) => {
                let header = header.clone()?;
                self.object.pairs.set_all(alloc, pairs)?;
                self.object.header = header;
                Ok(())
            }
        }
    }
}
