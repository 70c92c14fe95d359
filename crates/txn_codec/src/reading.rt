//! Operations, read one after the other.
ghost use Rattle.std.specs.Prelude.{◌≡◌, ◌≢◌, Ok, Err, IfOk, IfErr};
ghost use Rattle.fs_model.specs.declared.op.Op.TheVariants.{MkColl, RmColl};
ghost use Rattle.txn_codec.specs.Reading.{Reads, Decodes, tagged, snap_follows, pool_follows, coll_at, oid_at, op_at, ops_at, repeated, decoded, ◌&◌, mapped, number, blob_at, object_at, header_follows, pair_at, pairs_at, blobs_at, touch, write, zero_part, truncate, remove, set_attrs, rm_attr, rm_attrs, clone, clone_range, move_rename, omap_clear, omap_set, omap_remove, omap_range};
ghost use Rattle.txn_codec.specs.Spelling.{payload, OpsFit};

use crate::CodecFault;
use crate::reader::Reader;
use crate::tags::{
    CLONE, CLONE_RANGE, MK_COLL, MOVE_RENAME, OMAP_CLEAR, OMAP_RANGE, OMAP_REMOVE, OMAP_SET,
    REMOVE, RM_ATTR, RM_ATTRS, RM_COLL, SET_ATTRS, TOUCH, TRUNCATE, WRITE, ZERO,
};
use fs_model::{Blob, BlobList, Op, OpList, Pair, PairList, TXN_OPS, Txn};
use fs_names::{Coll, Oid, Snap};
use std::alloc::Global;

impl Reader<'_> {
    #[tactic(auto, unfolding(crate::specs::Reading::coll_at))]
    fn coll(&mut self) -> Result<Coll, CodecFault>
        ensures { Reads (λ x. x) result self.new (coll_at self.old) }
    {
        let at = self.place();
        match self.byte()? {
            0 => Ok(Coll::Meta),
            1 => {
                let pool = self.u64()?;
                let seed = self.u32()?;
                let temp = self.flag()?;
                Ok(Coll::Pg { pool, seed, temp })
            }
            _ => Err(CodecFault::BadTag { at }),
        }
    }

    fn snap(&mut self) -> Result<Snap, CodecFault>
        ensures { Reads (λ x. x) result self.new (tagged snap_follows self.old) }
    {
        let at = self.place();
        match self.byte()? {
            0 => Ok(Snap::Head),
            1 => Ok(Snap::Dir),
            2 => Ok(Snap::Id(self.u64()?)),
            _ => Err(CodecFault::BadTag { at }),
        }
    }

    fn pool(&mut self) -> Result<Option<u64>, CodecFault>
        ensures { Reads (λ x. x) result self.new (tagged pool_follows self.old) }
    {
        let at = self.place();
        match self.byte()? {
            0 => Ok(None),
            1 => Ok(Some(self.u64()?)),
            _ => Err(CodecFault::BadTag { at }),
        }
    }

    #[tactic(auto, unfolding(crate::specs::Reading::oid_at))]
    fn oid(&mut self, alloc: Global) -> Result<Oid, CodecFault>
        ensures { Reads (λ x. x) result self.new (oid_at self.old) }
    {
        let name = self.name(alloc)?;
        let key = self.name(alloc)?;
        let nspace = self.name(alloc)?;
        let snap = self.snap()?;
        let hash = self.u32()?;
        let pool = self.pool()?;
        Ok(Oid {
            name,
            key,
            nspace,
            snap,
            hash,
            pool,
        })
    }

    #[tactic(auto, unfolding(crate::specs::Reading::object_at))]
    fn object(&mut self, alloc: Global) -> Result<(Coll, Oid), CodecFault>
        ensures { Reads (λ x. x) result self.new (object_at self.old) }
    {
        let c = self.coll()?;
        let o = self.oid(alloc)?;
        Ok((c, o))
    }

    fn header(&mut self, alloc: Global) -> Result<Option<Blob>, CodecFault>
        ensures { Reads (λ x. x) result self.new (tagged header_follows self.old) }
    {
        let at = self.place();
        match self.byte()? {
            0 => Ok(None),
            1 => Ok(Some(self.blob(alloc)?)),
            _ => Err(CodecFault::BadTag { at }),
        }
    }

    #[tactic(auto, unfolding(crate::specs::Reading::pair_at))]
    fn pair(&mut self, alloc: Global) -> Result<Pair, CodecFault>
        ensures { Reads (λ x. x) result self.new (pair_at self.old) }
    {
        let key = self.blob(alloc)?;
        let value = self.blob(alloc)?;
        Ok(Pair { key, value })
    }

    fn some_pairs(&mut self, alloc: Global, count: u32) -> Result<Vec<Pair>, CodecFault>
        ensures { Reads (λ pairs. pairs.items) result self.new (repeated count pair_at self.old) }
    {
        let mut pairs = Vec::new(alloc);
        for _ in 0..count {
            pairs.push(self.pair(alloc)?)?;
        }
        Ok(pairs)
    }

    #[tactic(auto, unfolding(crate::specs::Reading::pairs_at))]
    fn pairs(&mut self, alloc: Global) -> Result<PairList, CodecFault>
        ensures { Reads (λ x. x) result self.new (pairs_at self.old) }
    {
        let count = self.u32()?;
        Ok(PairList::from_vec(self.some_pairs(alloc, count)?))
    }

    fn some_blobs(&mut self, alloc: Global, count: u32) -> Result<Vec<Blob>, CodecFault>
        ensures { Reads (λ blobs. blobs.items) result self.new (repeated count blob_at self.old) }
    {
        let mut blobs = Vec::new(alloc);
        for _ in 0..count {
            blobs.push(self.blob(alloc)?)?;
        }
        Ok(blobs)
    }

    #[tactic(auto, unfolding(crate::specs::Reading::blobs_at))]
    fn blobs(&mut self, alloc: Global) -> Result<BlobList, CodecFault>
        ensures { Reads (λ x. x) result self.new (blobs_at self.old) }
    {
        let count = self.u32()?;
        Ok(BlobList::from_vec(self.some_blobs(alloc, count)?))
    }

    fn touch(&mut self, alloc: Global) -> Result<Op, CodecFault>
        ensures { Reads (λ x. x) result self.new (mapped touch (object_at) self.old) }
    {
        let (c, o) = self.object(alloc)?;
        Ok(Op::Touch { c, o })
    }

    fn write(&mut self, alloc: Global) -> Result<Op, CodecFault>
        ensures { Reads (λ x. x) result self.new (mapped write (object_at & number 8 & blob_at) self.old) }
    {
        let (c, o) = self.object(alloc)?;
        let at = self.u64()?;
        let bytes = self.blob(alloc)?;
        Ok(Op::Write { c, o, at, bytes })
    }

    fn zero(&mut self, alloc: Global) -> Result<Op, CodecFault>
        ensures { Reads (λ x. x) result self.new (mapped zero_part (object_at & number 8 & number 8) self.old) }
    {
        let (c, o) = self.object(alloc)?;
        let at = self.u64()?;
        let len = self.u64()?;
        Ok(Op::Zero { c, o, at, len })
    }

    fn truncate(&mut self, alloc: Global) -> Result<Op, CodecFault>
        ensures { Reads (λ x. x) result self.new (mapped truncate (object_at & number 8) self.old) }
    {
        let (c, o) = self.object(alloc)?;
        let len = self.u64()?;
        Ok(Op::Truncate { c, o, len })
    }

    fn remove(&mut self, alloc: Global) -> Result<Op, CodecFault>
        ensures { Reads (λ x. x) result self.new (mapped remove (object_at) self.old) }
    {
        let (c, o) = self.object(alloc)?;
        Ok(Op::Remove { c, o })
    }

    fn set_attrs(&mut self, alloc: Global) -> Result<Op, CodecFault>
        ensures { Reads (λ x. x) result self.new (mapped set_attrs (object_at & pairs_at) self.old) }
    {
        let (c, o) = self.object(alloc)?;
        let pairs = self.pairs(alloc)?;
        Ok(Op::SetAttrs { c, o, pairs })
    }

    fn rm_attr(&mut self, alloc: Global) -> Result<Op, CodecFault>
        ensures { Reads (λ x. x) result self.new (mapped rm_attr (object_at & blob_at) self.old) }
    {
        let (c, o) = self.object(alloc)?;
        let name = self.blob(alloc)?;
        Ok(Op::RmAttr { c, o, name })
    }

    fn rm_attrs(&mut self, alloc: Global) -> Result<Op, CodecFault>
        ensures { Reads (λ x. x) result self.new (mapped rm_attrs (object_at) self.old) }
    {
        let (c, o) = self.object(alloc)?;
        Ok(Op::RmAttrs { c, o })
    }

    fn clone(&mut self, alloc: Global) -> Result<Op, CodecFault>
        ensures { Reads (λ x. x) result self.new (mapped clone (object_at & object_at) self.old) }
    {
        let (c, o) = self.object(alloc)?;
        let (c2, o2) = self.object(alloc)?;
        Ok(Op::Clone { c, o, c2, o2 })
    }

    fn clone_range(&mut self, alloc: Global) -> Result<Op, CodecFault>
        ensures { Reads (λ x. x) result self.new (mapped clone_range (object_at & object_at & number 8 & number 8 & number 8) self.old) }
    {
        let (c, o) = self.object(alloc)?;
        let (c2, o2) = self.object(alloc)?;
        let from = self.u64()?;
        let len = self.u64()?;
        let to = self.u64()?;
        Ok(Op::CloneRange {
            c,
            o,
            c2,
            o2,
            from,
            len,
            to,
        })
    }

    fn move_rename(&mut self, alloc: Global) -> Result<Op, CodecFault>
        ensures { Reads (λ x. x) result self.new (mapped move_rename (object_at & object_at) self.old) }
    {
        let (c, o) = self.object(alloc)?;
        let (c2, o2) = self.object(alloc)?;
        Ok(Op::MoveRename { c, o, c2, o2 })
    }

    fn mk_coll(&mut self) -> Result<Op, CodecFault>
        ensures { Reads (λ x. x) result self.new (mapped MkColl coll_at self.old) }
    {
        let c = self.coll()?;
        Ok(Op::MkColl { c })
    }

    fn rm_coll(&mut self) -> Result<Op, CodecFault>
        ensures { Reads (λ x. x) result self.new (mapped RmColl coll_at self.old) }
    {
        let c = self.coll()?;
        Ok(Op::RmColl { c })
    }

    fn omap_clear(&mut self, alloc: Global) -> Result<Op, CodecFault>
        ensures { Reads (λ x. x) result self.new (mapped omap_clear (object_at) self.old) }
    {
        let (c, o) = self.object(alloc)?;
        Ok(Op::OmapClear { c, o })
    }

    fn omap_set(&mut self, alloc: Global) -> Result<Op, CodecFault>
        ensures { Reads (λ x. x) result self.new (mapped omap_set (object_at & tagged header_follows & pairs_at) self.old) }
    {
        let (c, o) = self.object(alloc)?;
        let header = self.header(alloc)?;
        let pairs = self.pairs(alloc)?;
        Ok(Op::OmapSet {
            c,
            o,
            header,
            pairs,
        })
    }

    fn omap_remove(&mut self, alloc: Global) -> Result<Op, CodecFault>
        ensures { Reads (λ x. x) result self.new (mapped omap_remove (object_at & blobs_at) self.old) }
    {
        let (c, o) = self.object(alloc)?;
        let keys = self.blobs(alloc)?;
        Ok(Op::OmapRemove { c, o, keys })
    }

    fn omap_range(&mut self, alloc: Global) -> Result<Op, CodecFault>
        ensures { Reads (λ x. x) result self.new (mapped omap_range (object_at & blob_at & blob_at) self.old) }
    {
        let (c, o) = self.object(alloc)?;
        let from = self.blob(alloc)?;
        let to = self.blob(alloc)?;
        Ok(Op::OmapRange { c, o, from, to })
    }

    #[tactic(auto, unfolding(crate::specs::Reading::op_at))]
    fn op(&mut self, alloc: Global) -> Result<Op, CodecFault>
        ensures { Reads (λ x. x) result self.new (op_at self.old) }
    {
        let at = self.place();
        match self.byte()? {
            TOUCH => self.touch(alloc),
            WRITE => self.write(alloc),
            ZERO => self.zero(alloc),
            TRUNCATE => self.truncate(alloc),
            REMOVE => self.remove(alloc),
            SET_ATTRS => self.set_attrs(alloc),
            RM_ATTR => self.rm_attr(alloc),
            RM_ATTRS => self.rm_attrs(alloc),
            CLONE => self.clone(alloc),
            CLONE_RANGE => self.clone_range(alloc),
            MOVE_RENAME => self.move_rename(alloc),
            MK_COLL => self.mk_coll(),
            RM_COLL => self.rm_coll(),
            OMAP_CLEAR => self.omap_clear(alloc),
            OMAP_SET => self.omap_set(alloc),
            OMAP_REMOVE => self.omap_remove(alloc),
            OMAP_RANGE => self.omap_range(alloc),
            _ => Err(CodecFault::BadTag { at }),
        }
    }

    fn some_ops(&mut self, alloc: Global, count: u32) -> Result<Vec<Op>, CodecFault>
        ensures { Reads (λ ops. ops.items) result self.new (repeated count op_at self.old) }
    {
        let mut ops = Vec::new(alloc);
        for _ in 0..count {
            let op = match self.op(alloc) {
                Ok(op) => op,
                Err(fault) => return Err(fault),
            };
            ops.push(op)?;
        }
        Ok(ops)
    }

    #[tactic(auto, unfolding(crate::specs::Reading::ops_at))]
    fn ops(&mut self, alloc: Global) -> Result<Vec<Op>, CodecFault>
        ensures { Reads (λ ops. ops.items) result self.new (ops_at self.old) }
    {
        let at = self.place();
        let count = self.u32()?;
        if count as usize > TXN_OPS {
            return Err(CodecFault::BadLength { at });
        }
        self.some_ops(alloc, count)
    }
}

/// The operations that all of the bytes spell.
#[tactic(auto, unfolding(crate::specs::Reading::decoded))]
fn decode(alloc: Global, bytes: &[u8]) -> Result<Vec<Op>, CodecFault>
    ensures { Decodes (λ ops. ops.items) result (decoded bytes.now) }
{
    let mut reader = Reader::new(bytes);
    let ops = reader.ops(alloc)?;
    if !reader.is_at_end() {
        return Err(CodecFault::Trailing { at: reader.place() });
    }
    Ok(ops)
}

/// The transaction that all of the bytes spell.
pub fn decode_txn(alloc: Global, bytes: &[u8]) -> Result<Txn, CodecFault>
    ensures ok { IfOk result (λ txn. decoded bytes.now ≡ Ok txn.ops) }
    ensures fault { IfErr result (λ fault. fault ≢ CodecFault.Memory → decoded bytes.now ≡ Err fault) }
    ensures spelled { IfOk result (λ txn. payload txn.ops ≡ bytes.now) }
    ensures fits { IfOk result (λ txn. OpsFit txn.ops) }
{
    let ops = OpList::from_vec(decode(alloc, bytes)?);
    Ok(Txn { ops })
}
