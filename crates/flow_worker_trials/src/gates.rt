//! Networks whose processes wait for one another at a gate: readers side by side, whom one thread alone can't bring all there; and a sender that thinks on
//! only once what it sent was received, so that whoever makes its turns can't keep a packet until more are there.
use flow_component::Gate;
use flow_rig::{Called, File, call_by_workers};
use std::process::Abort;
use std::sync::atomic::{AtomicU64, Ordering};
use std::thread;

/// How often a process that waits looks whether the others have come.
const LOOKS: u32 = 1_000_000;

/// A gate that holds the first pass of each reader until a pass of every reader was reached. The readers are every second process, from
/// process 0 on. A run whose workers never pass it isn't full at the end, and one that runs them one after another has a reader that waits in vain.
#[derive(Drop)]
struct Meeting {
    readers: u64,
    /// By reader, how often it has come.
    come: [AtomicU64; 4],
    /// How often a reader has gone on though not all had come.
    alone: AtomicU64,
}

impl Meeting {
    fn new(readers: u64) -> Self {
        Meeting {
            readers,
            come: [
                AtomicU64::new(0),
                AtomicU64::new(0),
                AtomicU64::new(0),
                AtomicU64::new(0),
            ],
            alone: AtomicU64::new(0),
        }
    }

    /// Whether every reader has come.
    fn is_full(&self) -> bool {
        let mut missing = self.readers;
        for come in &self.come {
            if come.load(Ordering::SeqCst) > 0 && missing > 0 {
                missing -= 1;
            }
        }
        missing == 0
    }

    /// Waits until every reader has come, and notes it where it has waited long enough.
    fn wait(&self) {
        for _look in 0..LOOKS {
            if self.is_full() {
                return;
            }
            thread::yield_now();
        }
        self.alone.fetch_add(1, Ordering::SeqCst);
    }
}

impl Gate for Meeting {
    fn pass(&self, process: u32, _turns: u64) {
        let reader = (process / 2) as usize;
        if process % 2 == 0 && reader < self.come.len() {
            let before = self.come[reader].fetch_add(1, Ordering::SeqCst);
            if before == 0 {
                self.wait();
            }
        }
    }
}

/// A gate that holds a sender behind each of its first sends until a receiver has received as much. Both have two turns before their first packet.
#[derive(Drop)]
struct Rendezvous {
    sender: u32,
    receiver: u32,
    sends: u64,
    /// After how many turns the receiver thought last.
    come: AtomicU64,
    /// How often the sender has gone on though the receiver hadn't come.
    alone: AtomicU64,
}

impl Rendezvous {
    fn new(sender: u32, receiver: u32, sends: u64) -> Self {
        Rendezvous {
            sender,
            receiver,
            sends,
            come: AtomicU64::new(0),
            alone: AtomicU64::new(0),
        }
    }

    fn wait(&self, turns: u64) {
        for _look in 0..LOOKS {
            if self.come.load(Ordering::SeqCst) >= turns {
                return;
            }
            thread::yield_now();
        }
        self.alone.fetch_add(1, Ordering::SeqCst);
    }
}

impl Gate for Rendezvous {
    fn pass(&self, process: u32, turns: u64) {
        if process == self.receiver {
            self.come.store(turns, Ordering::SeqCst);
        } else if process == self.sender && turns > 2 && turns - 2 <= self.sends {
            self.wait(turns);
        }
    }
}

const BY_TWO: &[&str] = &["--workers", "2", "net"];

const BY_FOUR: &[&str] = &["--workers", "4", "net"];

const ONE: &[File<'static>] = &[
    (
        "net",
        b"flow 1\n'i' -> FILE A(ReadLines)\nA OUT -> IN V(WriteLines)\n'v' -> FILE V\n",
    ),
    ("i", b"x\ny\n"),
];

const LATE: &[File<'static>] = &[
    (
        "net",
        b"flow 2\n'many' -> FILE A(ReadLines)\nA OUT -> IN W(WriteLines)\n'w' -> FILE W\nW *OUT -> *IN B(ReadLines)\n'i' -> FILE B\nB OUT -> IN V(WriteLines)\n'v' -> FILE V\n",
    ),
    ("many", &[b'\n'; 2_000]),
    ("i", b"x\ny\n"),
];

const TWO: &[File<'static>] = &[
    (
        "net",
        b"flow 1\n'i' -> FILE A(ReadLines)\nA OUT -> IN V(WriteLines)\n'v' -> FILE V\n'i' -> FILE B(ReadLines)\nB OUT -> IN W(WriteLines)\n'w' -> FILE W\n",
    ),
    ("i", b"x\ny\n"),
];

const FOUR: &[File<'static>] = &[
    (
        "net",
        b"flow 1\n'i' -> FILE A(ReadLines)\nA OUT -> IN V(WriteLines)\n'v' -> FILE V\n'i' -> FILE B(ReadLines)\nB OUT -> IN W(WriteLines)\n'w' -> FILE W\n'i' -> FILE C(ReadLines)\nC OUT -> IN X(WriteLines)\n'x' -> FILE X\n'i' -> FILE D(ReadLines)\nD OUT -> IN Y(WriteLines)\n'y' -> FILE Y\n",
    ),
    ("i", b"x\ny\n"),
];

fn check_gate(rt: &impl Abort, gate: &Meeting, called: &Called, names: &[&str]) {
    assert_eq!(rt; called.status, 0);
    assert!(rt; gate.is_full());
    assert!(rt; gate.alone.load(Ordering::SeqCst) == 0);
    for name in names {
        assert!(rt;
            called.shelf.file(*name) == Some(b"x\ny\n".as_slice()),
            "of {name}"
        );
    }
}

#[test]
fn gate_holds_two(rt: HostRuntime) {
    let gate = Meeting::new(2);
    let called = call_by_workers(&rt, rt.alloc(), &["--workers", "2", "net"], TWO, &gate);
    check_gate(&rt, &gate, &called.expect(&rt, "no call"), &["v", "w"]);
}

#[test]
fn gate_holds_four(rt: HostRuntime) {
    let gate = Meeting::new(4);
    let called = call_by_workers(&rt, rt.alloc(), &["--workers", "4", "net"], FOUR, &gate);
    check_gate(
        &rt,
        &gate,
        &called.expect(&rt, "no call"),
        &["v", "w", "x", "y"],
    );
}

/// Whether the sender never went on alone, and what it sent is in the receiver's file.
fn check_rendezvous(rt: &impl Abort, gate: &Rendezvous, called: &Called) {
    assert_eq!(rt; called.status, 0);
    assert!(rt; gate.alone.load(Ordering::SeqCst) == 0);
    assert!(rt; called.shelf.file("v") == Some(b"x\ny\n".as_slice()));
}

/// Though the connection has room for ten packets, each is there to be received before its sender thinks on.
#[test]
fn a_sender_waits_for_its_receiver(rt: HostRuntime) {
    for line in &[BY_TWO, BY_FOUR] {
        let gate = Rendezvous::new(0, 1, 2);
        let called = call_by_workers(&rt, rt.alloc(), *line, ONE, &gate);
        check_rendezvous(&rt, &gate, &called.expect(&rt, "no call"));
    }
}

/// It is so of a sender that begins when many quick turns of others were made.
#[test]
fn a_late_sender_waits_for_its_receiver(rt: HostRuntime) {
    for line in &[BY_TWO, BY_FOUR] {
        let gate = Rendezvous::new(2, 3, 2);
        let called = call_by_workers(&rt, rt.alloc(), *line, LATE, &gate);
        check_rendezvous(&rt, &gate, &called.expect(&rt, "no call"));
    }
}
