// Lengths in scaled points and in math units, and the arithmetic that the rules do with them.
// What a method asks is that its numbers are not too far from zero, and not negative where they are divided.
// What it gives is a record of specs/Made.antt: the number in ℤ, and the same over ℕ for `omega`.

#![tactic(auto)]

ghost use Rattle.std.specs.Prelude.{◌<◌};
ghost use Rattle.scaled.specs.Length.{units_in_quad};
ghost use Rattle.scaled.specs.Signed.{Within, NotNegative};
ghost use Rattle.scaled.specs.Made.{reach, Sum, Difference, Negation, Multiple, Half, Floor, Greatest, Least, FromWord, AtQuad, Less};

// Scaled points, 65,536 to the point.
#[derive(Clone, Copy, PartialEq, Eq, PartialOrd, Ord)]
pub struct Sp(pub i64);

// Math units: a unit has a length only at a quad.
#[derive(Clone, Copy, PartialEq, Eq, PartialOrd, Ord)]
pub struct Mu(pub i64);

impl Sp {
    pub fn plus(self, o: Sp) -> Sp
        requires { Within reach self.0 × Within reach o.0 }
        ensures { Sum self.0 o.0 result.0 }
    {
        Sp(self.0 + o.0)
    }

    pub fn minus(self, o: Sp) -> Sp
        requires { Within reach self.0 × Within reach o.0 }
        ensures { Difference self.0 o.0 result.0 }
    {
        Sp(self.0 - o.0)
    }

    pub fn negated(self) -> Sp
        requires { Within reach self.0 }
        ensures { Negation self.0 result.0 }
    {
        Sp(0).minus(self)
    }

    pub fn times(self, k: u8) -> Sp
        requires { Within reach self.0 }
        ensures { Multiple k self.0 result.0 }
    {
        Sp(self.0 * (k as i64))
    }

    // A half, rounded up: of 3 it is 2, of -3 it is -1.
    pub fn half(self) -> Sp
        requires { Within reach self.0 }
        ensures { Half self.0 result.0 }
    {
        let up = self.plus(Sp(1));
        Sp(up.0 >> 1)
    }

    // The k-th part of what is not negative, rounded down.
    pub fn part(self, k: u16) -> Sp
        requires { NotNegative self.0 × (0 < k) }
        ensures { Floor k self.0 result.0 }
    {
        Sp(self.0 / (k as i64))
    }

    pub fn quarter(self) -> Sp
        requires { NotNegative self.0 }
        ensures { Floor 4 self.0 result.0 }
    {
        self.part(4)
    }

    pub fn fifth(self) -> Sp
        requires { NotNegative self.0 }
        ensures { Floor 5 self.0 result.0 }
    {
        self.part(5)
    }

    // The derived order in the words of the rules: the clauses of these three speak of numbers in ℤ, and for `omega` over ℕ.
    pub fn less(self, o: Sp) -> bool
        ensures { Less self.0 o.0 result }
    {
        self < o
    }

    pub fn max(self, o: Sp) -> Sp
        ensures { Greatest self.0 o.0 result.0 }
    {
        Ord::max(self, o)
    }

    pub fn min(self, o: Sp) -> Sp
        ensures { Least self.0 o.0 result.0 }
    {
        Ord::min(self, o)
    }
}

impl From<u32> for Sp {
    fn from(w: u32) -> Sp
        ensures { FromWord w result.0 }
    {
        Sp(i64::from(w))
    }
}

impl Mu {
    // The length of at most a quad's units: a unit is the quad's eighteenth, rounded down before it is multiplied.
    pub fn at(self, quad: Sp) -> Sp
        requires { Within units_in_quad self.0 × NotNegative quad.0 }
        ensures { AtQuad self.0 quad.0 result.0 }
    {
        let unit = quad.part(18);
        Sp(self.0 * unit.0)
    }
}
