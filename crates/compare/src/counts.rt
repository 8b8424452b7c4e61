// How often each thing was done, as it is printed.
use crate::kind::Kind;

#[derive(Clone, Copy)]
pub struct Counts {
    calls: [u32; 17],
    codes: [u32; 12],
    pub filled: u32,
    pub emptied: u32,
    pub damaged: u32,
    pub lengths: u32,
    pub runs: u32,
    pub changes: u32,
    pub differences: u32,
}

// Counts one more.
pub fn count(n: &mut u32) {
    *n = n.wrapping_add(1);
}

impl Counts {
    pub fn new() -> Counts {
        Counts {
            calls: [0; 17],
            codes: [0; 12],
            filled: 0,
            emptied: 0,
            damaged: 0,
            lengths: 0,
            runs: 0,
            changes: 0,
            differences: 0,
        }
    }

    // A call of this kind was made, and told this code.
    pub fn call(&mut self, kind: Kind, code: u32) {
        count(&mut self.calls[kind as usize - 1]);
        if let Some(n) = self.codes.get_mut(code as usize) {
            count(n);
        }
    }

    // Each count behind its name. A line that cannot be written is passed over.
    pub fn print(&self, rt: &impl Print) {
        for (kind, n) in Kind::ALL.iter().zip(self.calls.iter()) {
            let _ = println!(rt; "{}: {n}", kind.name());
        }
        for (code, n) in self.codes.iter().enumerate() {
            let _ = println!(rt; "code {code}: {n}");
        }
        let _ = println!(rt; "pools filled: {}", self.filled);
        let _ = println!(rt; "pools emptied: {}", self.emptied);
        let _ = println!(rt; "pools damaged: {}", self.damaged);
        let _ = println!(rt; "lengths that are no pool's: {}", self.lengths);
        let _ = println!(rt; "runs taken back: {}", self.runs);
        let _ = println!(rt; "changes taken back: {}", self.changes);
        let _ = println!(rt; "differences: {}", self.differences);
    }
}
