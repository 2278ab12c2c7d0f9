ghost use Rattle.std.specs.Prelude.{◌≡◌, ℕ, ◌+◌, ◌*◌, ◌^◌, ◌<◌, Some};
ghost use Rattle.marked_machine.specs.Marks.{next_mark, put_mark};

use ml_base::StepNo;

/// A rule of marks, by tables. Marks of states are the numbers below `count`, and marks of frames those below `frame_count`.
#[derive(Debug, Drop)]
pub struct Marks {
    pub count: u64,
    pub frame_count: u64,
    /// By the mark before a push: the mark of its frame. Where there is none, or none below `frame_count`, there is no push.
    pub puts: Vec<u64>,
    /// By step: its row.
    pub classes: Vec<u64>,
    /// The mark behind a step. Cell `i` of its row is that at mark `i`, and for a pop of a frame with mark `j` cell `j * count + i`
    /// is. Where there is no cell, or no mark below `count` in it, there is no step.
    pub rows: Vec<Vec<Option<u64>>>,
}

impl Marks {
    /// The mark behind the step, which is at the mark and sees the mark of a frame: 0 if it is no pop. None if the rule has no such step.
    pub fn next(&self, step: StepNo, mark: u64, seen: u64) -> Option<u64>
        requires { seen * self.now.count + mark < 2 ^ 64 }
        ensures next { result ≡ next_mark self.now step.0 mark seen }
        ensures below { (a : ℕ) → result ≡ Some a → a < self.now.count }
    {
        let row = self.rows.get(*self.classes.get(step.0 as usize)? as usize)?;
        let after = (*row.get((seen * self.count + mark) as usize)?)?;
        if after < self.count {
            Some(after)
        } else {
            None
        }
    }

    /// The mark that a push at the mark puts beside its frame. None if there is no push.
    pub fn put(&self, mark: u64) -> Option<u64>
        ensures put { result ≡ put_mark self.now mark }
        ensures below { (a : ℕ) → result ≡ Some a → a < self.now.frame_count }
    {
        let put = *self.puts.get(mark as usize)?;
        if put < self.frame_count {
            Some(put)
        } else {
            None
        }
    }
}
