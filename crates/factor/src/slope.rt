// The steepness of a cell, from its fall: twice its drop, and one more where its direction is diagonal; and slopes in percent. RULES 4.3.
ghost use Rattle.std.specs.Prelude.{◌≡◌, ◌≤◌};
ghost use Rattle.factor.specs.Percent.{at_least, above};
ghost use Rattle.factor.specs.Inner.{greatest_fall, steepness_of, Sloping};

// The slope of a cell: its cell side c in cm, and its steepness q. It is one of n percent where 5,000·q is n²·c².
#[derive(Clone, Copy)]
pub(crate) struct Slope {
    pub(crate) side: u32,
    pub(crate) q: u64,
}

impl Slope {
    // Whether it is a slope of so many percent or more.
    pub(crate) fn is_at_least(self, percent: u64) -> bool
        requires { Sloping self.side self.q × (percent ≤ 100) }
        ensures { result ≡ at_least percent self.side self.q }
    {
        let side = u64::from(self.side);
        let square = side * side;
        percent * percent * square <= 5000 * self.q
    }

    // Whether it is a slope above so many percent.
    pub(crate) fn is_above(self, percent: u64) -> bool
        requires { Sloping self.side self.q × (percent ≤ 100) }
        ensures { result ≡ above percent self.side self.q }
    {
        let side = u64::from(self.side);
        let square = side * side;
        percent * percent * square < 5000 * self.q
    }
}

// The steepness of a fall.
pub(crate) fn steepness_of(fall: u32) -> u64
    requires { fall ≤ greatest_fall }
    ensures { result ≡ steepness_of fall }
{
    let drop = u64::from(fall / 2);
    let square = drop * drop;
    if fall % 2 == 0 {
        return 2 * square;
    }
    square
}
