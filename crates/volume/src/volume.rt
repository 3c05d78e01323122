// The volume, and its calls.
ghost use Rattle.std.specs.Prelude.{◌≡◌, MatchResult, Ok, Err};

use crate::checks::{check_areas, fitting, formattable};
use crate::format::{write_zero_tree, write_zeros};
use crate::present::Present;
use crate::refusal::{Failed, Refusal, Side};
use crate::register::Register;
use crate::slip::{Slip, Unspent};
use crate::walk::{RECORD, fetch_into, walk_into};
use crate::write::{plan_for, put, put_up};
use device::device::Device;
use digest::hash::Hash;
use geometry::Geometry;

// Two devices that nobody trusts, one with the blocks and one with the hash tree. The data device is the store here, as `data` is a word
// of the clauses.
#[derive(Drop)]
pub struct Volume<D, T, H> {
    pub(crate) store: D,
    pub(crate) tree: T,
    pub(crate) hash: H,
    pub(crate) number: u32,
    // None where the volume is closed.
    pub(crate) present: Option<Present>,
}

impl<D: Device, T: Device, H: Hash> Volume<D, T, H> {
    ghost use Rattle.std.specs.Prelude.{◌<◌, None, Some, length, replicate, IfErr, IfOk};
    ghost use Rattle.tree.specs.Layout.{root_of, tree_of, zero_block};
    ghost use Rattle.volume.specs.Calls.{BeginStep, FormatStep, KeepStep, LeaveStep, OpenStep, Putting, ReadStep, Settling, ShutStep, WriteStep, Writing};
    ghost use Rattle.volume.specs.Checks.{begin_check, slip_check};
    ghost use Rattle.volume.specs.Parts.{Holds};
    ghost use Rattle.volume.specs.Promise.{Start};
    ghost use Rattle.volume.specs.Refusals.{done, plain, reason, told};
    ghost use Rattle.volume.specs.Slips.{slip_number, slip_with, unspent};
    ghost use Rattle.volume.specs.View.{IsMade, base, open_of, opened_as, view};
    ghost use Rattle.volume.specs.Writes.{InTurn};

    // A closed volume.
    pub fn new(store: D, tree: T, hash: H, number: u32) -> Volume<D, T, H>
        ensures { IsMade result store tree hash number }
    {
        Volume {
            store,
            tree,
            hash,
            number,
            present: None,
        }
    }

    fn opened(&self) -> Result<Present, Refusal>
        ensures { MatchResult result (λ p. self.now.present ≡ Some p) (λ e. (reason e ≡ plain 40) × (self.now.present ≡ None)) }
    {
        self.present.ok_or(Refusal::Closed)
    }

    // Opens the volume with what the register has. Nothing is read.
    pub fn open(&mut self, register: &Register) -> Result<(), Refusal>
        ensures { OpenStep (base D.Source.own T.Source.own D.Device.own T.Device.own H.Hash.own) self.old register.now (told result) self.new }
    {
        if self.present.is_some() {
            return Err(Refusal::Opened);
        }
        let geometry = fitting(register, H::KIND, self.store.blocks(), self.tree.blocks())?;
        self.present = Some(Present {
            geometry,
            root: register.root,
            slip_out: false,
        });
        Ok(())
    }

    // The open volume, where no slip is out.
    fn opened_without_slip(&self) -> Result<Present, Refusal>
        ensures { let check = begin_check (open_of self.now.present) in MatchResult result (λ p. (self.now.present ≡ Some p) × (check ≡ Ok (opened_as p))) (λ e. check ≡ Err (reason e)) }
    {
        let present = self.opened()?;
        if present.slip_out {
            Err(Refusal::SlipOut)
        } else {
            Ok(present)
        }
    }

    // A slip, which bears the number of this volume.
    pub fn begin(&mut self) -> Result<Slip, Refusal>
        ensures step { BeginStep (base D.Source.own T.Source.own D.Device.own T.Device.own H.Hash.own) self.old (done (told result)) self.new }
        ensures slip { IfOk result (λ s. s ≡ slip_with self.old.number) }
    {
        let present = self.opened_without_slip()?;
        self.present = Some(Present {
            slip_out: true,
            ..present
        });
        Ok(Slip::of(self.number))
    }

    // Reads a block from the root down. The area gets what the root vouches for, else zeros; the log gets what passed.
    pub fn read(&mut self, number: usize, block: &mut [u8], log: &mut [u8]) -> Result<(), Refusal>
        ensures { ReadStep (base D.Source.own T.Source.own D.Device.own T.Device.own H.Hash.own) self.old number block.old log.old (told result) block.new log.new self.new }
    {
        let Present { geometry, root, .. } = self.opened()?;
        check_areas(geometry.blocks, number, block.len(), log.len())?;
        let (store, tree) = (&mut self.store, &mut self.tree);
        fetch_into(store, tree, &self.hash, geometry, number, &root, block, log)
    }

    // The open volume, where this slip is its own and out.
    fn opened_for(&self, slip: &Slip) -> Result<Present, Refusal>
        ensures { let check = slip_check (open_of self.now.present) self.now.number (slip_number slip.now) in MatchResult result (λ p. (self.now.present ≡ Some p) × (check ≡ Ok (opened_as p))) (λ e. check ≡ Err (reason e)) }
    {
        let present = self.opened()?;
        if present.slip_out && slip.number() == self.number {
            Ok(present)
        } else {
            Err(Refusal::WrongSlip)
        }
    }

    // Puts a block in. The walk is that of read, but for the data block, which is not read; the log gets what passed. The root moves
    // also where a device refuses a write: no sure cell is lost by that.
    pub fn write(
        &mut self,
        slip: &Slip,
        number: usize,
        block: &[u8],
        log: &mut [u8],
    ) -> Result<(), Refusal>
        ensures { WriteStep (base D.Source.own T.Source.own D.Device.own T.Device.own H.Hash.own) self.old (slip_number slip.now) number block.now log.old (told result) log.new self.new }
    {
        let present = self.opened_for(slip)?;
        check_areas(present.geometry.blocks, number, block.len(), log.len())?;
        self.write_checked(present, number, block, log)
    }

    // The write of an open volume.
    fn write_checked(
        &mut self,
        present: Present,
        number: usize,
        block: &[u8],
        log: &mut [u8],
    ) -> Result<(), Refusal>
        requires is_open { self.old.present ≡ Some present }
        requires inside { number < present.geometry.blocks }
        requires areas { (length block.now ≡ 512) × (length log.old ≡ 2048) }
        ensures { Writing (base D.Source.own T.Source.own D.Device.own T.Device.own H.Hash.own) self.old (opened_as present) number block.now (told result) log.new self.new }
    {
        walk_into(
            &mut self.tree,
            &self.hash,
            present.geometry,
            number,
            &present.root,
            log,
        )?;
        self.put_passed(present, number, block, log)
    }

    // The write of an open volume whose walk has passed.
    fn put_passed(
        &mut self,
        present: Present,
        number: usize,
        block: &[u8],
        log: &[u8],
    ) -> Result<(), Refusal>
        requires is_open { self.old.present ≡ Some present }
        requires inside { number < present.geometry.blocks }
        requires areas { (length block.now ≡ 512) × (length log.now ≡ 2048) }
        ensures { Putting (base D.Source.own T.Source.own D.Device.own T.Device.own H.Hash.own) self.old (opened_as present) number block.now self.old.tree (told result) log.now self.new }
    {
        let (Some(block), Some(log)) = (block.as_array(), log.as_array()) else {
            unreachable!()
        };
        self.put_blocks(present, number, block, log)
    }

    // The same over arrays: the data block, then the tree blocks over it.
    fn put_blocks(
        &mut self,
        present: Present,
        number: usize,
        block: &[u8; 512],
        log: &[u8; RECORD],
    ) -> Result<(), Refusal>
        requires is_open { self.old.present ≡ Some present }
        requires inside { number < present.geometry.blocks }
        ensures { Putting (base D.Source.own T.Source.own D.Device.own T.Device.own H.Hash.own) self.old (opened_as present) number block.now self.old.tree (told result) log.now self.new }
    {
        let plan = plan_for(&self.hash, present.geometry, number, block, log);
        let mut failed = None;
        put(&mut self.store, Side::Data, 0, number, block, &mut failed);
        put_up(&mut self.tree, present.geometry, number, &plan, &mut failed);
        self.present = Some(Present {
            root: plan.root,
            ..present
        });
        match failed {
            Some(failed) => Err(Refusal::Unwritten(failed)),
            None => Ok(()),
        }
    }

    // Settles both devices, once each. True where nothing is held back any more.
    fn settle(&mut self) -> bool
        ensures settled { Settling D.Device.own T.Device.own self.old.store self.old.tree result self.new.store self.new.tree }
        ensures others { self.new ≡ record self.old { store = self.new.store; tree = self.new.tree } }
    {
        let store_is_clear = self.store.settle();
        let tree_is_clear = self.tree.settle();
        store_is_clear && tree_is_clear
    }

    // Enters into the register what a volume under this hash is.
    fn enter(register: &mut Register, geometry: Geometry, root: [u8; 32])
        ensures { Holds register.new geometry.blocks H.Hash.KIND root }
    {
        *register = Register {
            blocks: geometry.blocks,
            kind: H::KIND,
            root,
        };
    }

    // Settles both devices. Where nothing is held back then, the register gets the present root, and the slip is taken.
    pub fn keep(&mut self, slip: Slip, register: &mut Register) -> Result<(), Unspent>
        ensures step { KeepStep (base D.Source.own T.Source.own D.Device.own T.Device.own H.Hash.own) self.old (slip_number slip) register.old (unspent result) self.new register.new }
        ensures back { IfErr result (λ u. u.slip ≡ slip) }
    {
        let present = match self.opened_for(&slip) {
            Ok(present) => present,
            Err(refusal) => return Err(Unspent { refusal, slip }),
        };
        if !self.settle() {
            let refusal = Refusal::NotClear;
            return Err(Unspent { refusal, slip });
        }
        Self::enter(register, present.geometry, present.root);
        self.present = Some(Present {
            slip_out: false,
            ..present
        });
        slip.spend();
        Ok(())
    }

    // Takes the slip and closes the volume. What was written since the last keep is given up, and the register stays.
    pub fn leave(&mut self, slip: Slip) -> Result<(), Unspent>
        ensures step { LeaveStep (base D.Source.own T.Source.own D.Device.own T.Device.own H.Hash.own) self.old (slip_number slip) (unspent result) self.new }
        ensures back { IfErr result (λ u. u.slip ≡ slip) }
    {
        if let Err(refusal) = self.opened_for(&slip) {
            return Err(Unspent { refusal, slip });
        }
        self.present = None;
        slip.spend();
        Ok(())
    }

    // Fills both devices with zero blocks and the tree over them, and settles them. Where nothing is held back then, the register gets
    // the root, and a story may start.
    pub fn format(&mut self, register: &mut Register) -> Result<(), Refusal>
        ensures step { FormatStep (base D.Source.own T.Source.own D.Device.own T.Device.own H.Hash.own) self.old register.old (told result) self.new register.new }
        ensures start { IfOk result (λ _. let view = view (base D.Source.own T.Source.own D.Device.own T.Device.own H.Hash.own) in Start (view self.new) register.new (replicate (view self.old).store.blocks zero_block)) }
    {
        self.format_devices(register)
    }

    fn format_devices(&mut self, register: &mut Register) -> Result<(), Refusal>
        ensures { FormatStep (base D.Source.own T.Source.own D.Device.own T.Device.own H.Hash.own) self.old register.old (told result) self.new register.new }
    {
        if self.present.is_some() {
            return Err(Refusal::Opened);
        }
        let geometry = formattable(self.store.blocks(), self.tree.blocks())?;
        let root = self.write_all(geometry);
        if !self.settle() {
            return Err(Refusal::NotClear);
        }
        Self::enter(register, geometry, root);
        Ok(())
    }

    // Writes zeros to every data block, and the tree over them. The answer is its root.
    fn write_all(&mut self, geometry: Geometry) -> [u8; 32]
        ensures store { InTurn D.Device.own 0 (replicate geometry.blocks zero_block) self.old.store self.new.store }
        ensures tree { InTurn T.Device.own 0 (tree_of (H.Hash.image self.old.hash) (replicate geometry.blocks zero_block)) self.old.tree self.new.tree }
        ensures root { result ≡ root_of (H.Hash.image self.old.hash) (replicate geometry.blocks zero_block) }
        ensures others { self.new ≡ record self.old { store = self.new.store; tree = self.new.tree } }
    {
        write_zeros(&mut self.store, geometry.blocks);
        write_zero_tree(&mut self.tree, &self.hash, geometry)
    }

    // Closes the volume.
    pub fn shut(&mut self) -> Result<(), Refusal>
        ensures { ShutStep (base D.Source.own T.Source.own D.Device.own T.Device.own H.Hash.own) self.old (told result) self.new }
    {
        self.opened_without_slip()?;
        self.present = None;
        Ok(())
    }
}
