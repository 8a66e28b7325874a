ghost use Rattle.std.specs.Prelude.{◌≡◌, ◌↔◌, [], None, IsTrue};
ghost use Rattle.gft_drive.specs.Words.{sent_by};
ghost use Rattle.gft_keep.specs.Words.{IsKeep, keep_of};
ghost use Rattle.gft_book.specs.Book.{HasMetTotal, IsRunning, Seen, book_of, usage_of};
ghost use Rattle.gft_book.specs.Facts.{ImagesAreFrom, IsBook};
ghost use Rattle.gft_book.specs.declared.transfer.Stage.TheVariants.{Rest};

use crate::mark::Mark;
use crate::transfer::Stage;
use crate::usage::Use;
use gft_drive::{Drive, Origin};
use gft_keep::Keep;
use gft_pass::Settled;
use std::alloc::Global;
use std::marker::{Model, PhantomData};

/// The state of one file. Contracts see `book_of D.state book`; `facts` tells them what is true of every
/// Book.
///
/// Looks: `use_now`, `running`, `met`, `turns`, `mark_due`, `mark_at`. A transfer: `begin_store`, then with
/// its passes `store`, `eof`, `eod`, `fail`, and `mark`, then `settle`.
#[derive(Drop)]
pub struct Book<D: Drive + Drop, O: Origin> {
    pub(crate) alloc: Global,
    pub(crate) keep: Keep<D>,
    pub(crate) stage: Stage,
    pub(crate) last: Option<Settled>,
    pub(crate) marks: Vec<Mark>,
    pub(crate) unmarked: u64,
    pub(crate) turns: u64,
    pub(crate) origin: PhantomData<O>,
}

impl<D: Drive + Drop, O: Origin> Model for Book<D, O> {
    ghost use Rattle.gft_drive.specs.Words.{sent_by};
    ghost use Rattle.gft_keep.specs.Words.{keep_of};
    ghost use Rattle.gft_book.specs.Book.{BookState, Seen};
    ghost use Rattle.gft_book.specs.Facts.{IsBook};

    ghost Value = { Seen D };

    ghost view = { λ b. record {
      keep = b.keep;
      stage = b.stage;
      last = b.last;
      marks = b.marks.items;
      unmarked = b.unmarked;
      turns = b.turns;
    } };

    ghost invariant = { λ b. IsBook (sent_by O.source O.orders O.fit) (record {
      keep = keep_of D.state b.keep;
      stage = b.stage;
      last = b.last;
      marks = b.marks.items;
      unmarked = b.unmarked;
      turns = b.turns;
    }) };
}

impl<D: Drive + Drop, O: Origin> Book<D, O> {
    /// A Book over a keep. If the origin names a source for its label, what the drive has is the source's.
    pub fn new(alloc: Global, keep: Keep<D>) -> Book<D, O>
        requires keep { IsKeep (keep_of D.state keep) }
        requires origin { ImagesAreFrom (sent_by O.source O.orders O.fit) (keep_of D.state keep) }
        ensures { result ≡ record {
          keep = keep;
          stage = Rest;
          last = None;
          marks = [];
          unmarked = 0;
          turns = 0;
        } }
    {
        Book {
            alloc,
            keep,
            stage: Stage::Rest,
            last: None,
            marks: Vec::new(alloc),
            unmarked: 0,
            turns: 0,
            origin: PhantomData,
        }
    }

    /// Tells contracts what is true of every Book. It does nothing.
    pub fn facts(&self)
        ensures { IsBook (sent_by O.source O.orders O.fit) (book_of D.state self.now) }
    {
        let _ = &self.turns;
    }

    /// What the file is used for.
    pub fn use_now(&self) -> Use
        ensures { result ≡ usage_of self.now.stage }
    {
        match &self.stage {
            Stage::Rest => Use::Rest,
            Stage::Reading(readers) => Use::Reading(*readers),
            Stage::Storing(_) => Use::Storing,
        }
    }

    /// Whether a transfer runs, and no cause is kept.
    pub fn running(&self) -> bool
        ensures running { IsTrue result ↔ IsRunning self.now.stage }
    {
        match &self.stage {
            Stage::Storing(transfer) => transfer.cause.is_none(),
            Stage::Rest | Stage::Reading(_) => false,
        }
    }

    /// Whether a transfer's total is known and as many EODs were taken.
    pub fn met(&self) -> bool
        ensures met { IsTrue result ↔ HasMetTotal self.now.stage }
    {
        match &self.stage {
            Stage::Storing(transfer) => transfer.count.is_met(),
            Stage::Rest | Stage::Reading(_) => false,
        }
    }

    /// How many calls found this transfer running. At the type's end it stands still.
    pub fn turns(&self) -> u64
        ensures { result ≡ self.now.turns }
    {
        self.turns
    }

    /// Gives the keep of a file at rest back.
    pub fn into_keep(self) -> Keep<D>
        requires rest { self.stage ≡ Rest }
        ensures keep { result ≡ self.keep }
        ensures sound { IsKeep (keep_of D.state result) }
        ensures origin { ImagesAreFrom (sent_by O.source O.orders O.fit) (keep_of D.state result) }
    {
        self.keep
    }
}
