// What is known of runs of nodes. What each function gives is defined in specs/Values.antt.
ghost use Rattle.std.specs.Prelude.{◌≡◌, not, ◌&&◌, ◌||◌, ◌+◌, ◌^◌, ◌<◌};
ghost use Rattle.scaled.specs.Made.{reach};
ghost use Rattle.scaled.specs.Signed.{Within};
ghost use Rattle.nodes.specs.Bounds.{within};
ghost use Rattle.nodes.specs.Hull.{hull_fits, HullWithin};
ghost use Rattle.nodes.specs.Values.{hull_of, marked, is_large, EmptyRun, LargeRun, PointRun, JoinedRun, MovedRun};

use scaled::Sp;

const GREATEST_LENGTH: u64 = 1_073_741_823;

// What is known of some nodes: how many there are, and the least and the greatest x and y; without a node the lengths mean nothing.
// Large, 1 in place of 0, where a list that they were set from passes the greatest length; then nothing else of it means anything.
// It is a number and no bool for speed: with a bool the record has a gap, which is copied with it.
#[derive(Clone, Copy)]
pub struct Run {
    pub count: usize,
    pub left: Sp,
    pub right: Sp,
    pub bottom: Sp,
    pub top: Sp,
    pub large: usize,
}

impl Run {
    // No node.
    pub fn empty() -> Run
        ensures { EmptyRun result }
    {
        Run {
            count: 0,
            left: Sp(0),
            right: Sp(0),
            bottom: Sp(0),
            top: Sp(0),
            large: 0,
        }
    }

    // What stands for a list that passes the greatest length.
    pub fn too_large() -> Run
        ensures { LargeRun result }
    {
        Run {
            large: 1,
            ..Run::empty()
        }
    }

    // One node at (x, y).
    pub fn point(x: Sp, y: Sp) -> Run
        ensures { PointRun x.0 y.0 result }
    {
        Run {
            count: 1,
            left: x,
            right: x,
            bottom: y,
            top: y,
            large: 0,
        }
    }

    // Two runs, one behind the other.
    #[tactic(auto, using(crate::proofs::RunCases::some_count, crate::proofs::RunCases::of_none, crate::proofs::RunCases::of_some), unfolding(crate::specs::Hull::joined))]
    pub fn joined(mut self, mut o: Run) -> Run
        requires { self.count + o.count < 2 ^ 64 }
        ensures { JoinedRun self o result }
    {
        let large = either(self.large, o.large);
        if self.count == 0 {
            o.large = large;
            return o;
        }
        if o.count == 0 {
            self.large = large;
            return self;
        }
        Run {
            count: self.count + o.count,
            left: self.left.min(o.left),
            right: self.right.max(o.right),
            bottom: self.bottom.min(o.bottom),
            top: self.top.max(o.top),
            large,
        }
    }

    // The nodes moved right by dx and up by dy.
    #[tactic(auto, using(crate::proofs::RunCases::some_count, crate::proofs::RunCases::of_none, crate::proofs::RunCases::of_some), unfolding(crate::specs::Hull::moved_hull))]
    pub fn moved(self, dx: Sp, dy: Sp) -> Run
        requires { HullWithin reach (hull_of self) × Within reach dx.0 × Within reach dy.0 }
        ensures { MovedRun dx.0 dy.0 self result }
    {
        if self.count == 0 {
            return self;
        }
        Run {
            left: self.left.plus(dx),
            right: self.right.plus(dx),
            bottom: self.bottom.plus(dy),
            top: self.top.plus(dy),
            ..self
        }
    }

    // Whether no list and no node passes the greatest length.
    #[tactic(auto, using(crate::proofs::RunCases::marked_some, crate::proofs::RunCases::of_none, crate::proofs::RunCases::of_some), unfolding(crate::specs::Hull::hull_fits))]
    pub fn fits(self) -> bool
        ensures { result ≡ (not (is_large self) && hull_fits (hull_of self)) }
    {
        if self.large != 0 {
            return false;
        }
        if self.count == 0 {
            return true;
        }
        within(self.left) & within(self.right) & within(self.bottom) & within(self.top)
    }
}

// The mark of two runs, one of which may be large.
#[tactic(auto, using(crate::proofs::RunCases::marked_some))]
fn either(a: usize, b: usize) -> usize
    ensures { marked result ≡ (marked a || marked b) }
{
    if a == 0 { b } else { a }
}

// Whether a length is within the greatest.
pub fn within(z: Sp) -> bool
    ensures { result ≡ within z.0 }
{
    z.0.unsigned_abs() <= GREATEST_LENGTH
}
