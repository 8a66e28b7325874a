use std::sync::Wait;
use std::sync::atomic::{AtomicBool, Ordering};
use std::thread::Parker;

/// What wakes a teller, and what it is told beside the marks.
#[derive(Drop)]
pub(crate) struct Bell {
    parker: Parker,
    starved: AtomicBool,
    closed: AtomicBool,
}

impl Bell {
    pub(crate) fn new() -> Bell {
        Bell {
            parker: Parker::new(),
            starved: AtomicBool::new(false),
            closed: AtomicBool::new(false),
        }
    }

    /// Wakes the teller.
    pub(crate) fn ring(&self) {
        self.parker.unpark();
    }

    /// Memory for a mark was refused.
    pub(crate) fn starve(&self) {
        self.starved.store(true, Ordering::SeqCst);
        self.ring();
    }

    /// No mark comes any more.
    pub(crate) fn close(&self) {
        self.closed.store(true, Ordering::SeqCst);
        self.ring();
    }

    pub(crate) fn is_starved(&self) -> bool {
        self.starved.load(Ordering::SeqCst)
    }

    pub(crate) fn is_closed(&self) -> bool {
        self.closed.load(Ordering::SeqCst)
    }

    /// Waits until it rang since the last wait.
    pub(crate) fn wait<R: Wait>(&self, rt: &R) {
        self.parker.park(rt);
    }
}
