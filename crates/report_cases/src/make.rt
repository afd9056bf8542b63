// Settings and reports of which most numbers are alike.
use report::{Greatest, Report};
use settings::{Channel, Formula, Settings};

pub(crate) const NO_DATA: u32 = u32::MAX;

pub(crate) fn settings(low: f64, high: f64, channel: Channel) -> Settings {
    Settings {
        low,
        high,
        channel,
        formula: Formula::Older,
    }
}

pub(crate) fn no_channel() -> Settings {
    settings(0.5, 0.5, Channel::NoChannel)
}

pub(crate) fn found(factor: u64, map: u64, cell: u64) -> Option<Greatest> {
    Some(Greatest { factor, map, cell })
}

// So many maps, and nothing else but the greatest.
pub(crate) fn leading(maps: u64, greatest: Option<Greatest>) -> Report {
    Report {
        maps,
        greatest,
        ..Report::empty()
    }
}

// One number is n: 0 for the number of maps, then the totals in their order.
pub(crate) fn one(k: u32, n: u64) -> Report {
    let empty = Report::empty();
    match k {
        0 => Report { maps: n, ..empty },
        1 => Report { valid: n, ..empty },
        2 => Report {
            channel: n,
            ..empty
        },
        3 => Report { zero: n, ..empty },
        4 => Report { long: n, ..empty },
        5 => Report { sum: n, ..empty },
        6 => Report { under1: n, ..empty },
        7 => Report { from1: n, ..empty },
        8 => Report { from5: n, ..empty },
        9 => Report { from10: n, ..empty },
        _ => empty,
    }
}
