// Reports of lists of maps, added one after another.
ghost use Rattle.std.specs.Prelude.{◌<◌};

use crate::make::{NO_DATA, no_channel, settings};
use crate::show;
use factor::TOO_LONG;
use report::Report;
use settings::{Channel, Settings};
use std::io;

// Adds a row of cells, each with count 1, without channels.
fn row(
    rt: &impl Print,
    name: &str,
    report: &mut Report,
    count: &[u32],
    factors: &[u32],
) -> io::Result<()> {
    let answer = report::add(report, 1, factors.len(), no_channel(), count, factors);
    show::answered(rt, name, answer, *report)
}

// The report of one row alone.
fn alone(rt: &impl Print, name: &str, count: &[u32], factors: &[u32]) -> io::Result<()> {
    let mut report = Report::empty();
    row(rt, name, &mut report, count, factors)
}

pub(crate) fn run(rt: &impl Print) -> io::Result<()> {
    show::report(rt, "no maps", Report::empty())?;
    alone(rt, "no data", &[0, 0], &[NO_DATA, NO_DATA])?;
    classes(rt)?;
    alone(rt, "too long alone", &[1, 1], &[TOO_LONG, TOO_LONG])?;
    alone(rt, "LS 0 alone", &[1, 1, 1], &[NO_DATA, 0, 0])?;
    alone(rt, "a tie in a map", &[1, 1, 1, 1], &[7, 9, 3, 9])?;
    maps(rt)
}

// Each class at its bounds, with the default settings, where counts above 2 are channels as the largest is 200; and a channel rule by a
// number of cells, with the greatest count and the greatest LS that there can be.
fn classes(rt: &impl Print) -> io::Result<()> {
    let mut bounds = Report::empty();
    let answer = report::add(
        &mut bounds,
        3,
        3,
        Settings::default(),
        &[0, 1, 2, 3, 200, 0, 1, 2, 0],
        &[
            99999, 100000, 499999, 500000, 999999, 1000000, 0, TOO_LONG, NO_DATA,
        ],
    );
    show::answered(rt, "each class at its bounds", answer, bounds)?;
    let mut channels = Report::empty();
    let answer = report::add(
        &mut channels,
        1,
        3,
        settings(0.5, 0.5, Channel::Cells(7)),
        &[7, 8, u32::MAX],
        &[TOO_LONG - 1, 1, 1],
    );
    show::answered(rt, "channels above 7 cells", answer, channels)
}

fn maps(rt: &impl Print) -> io::Result<()> {
    let mut two = Report::empty();
    row(rt, "the first of two", &mut two, &[1, 1], &[5, 8])?;
    row(rt, "a tie between maps", &mut two, &[1, 1], &[8, 1])?;
    let mut four = Report::empty();
    row(rt, "the first of four", &mut four, &[1], &[NO_DATA])?;
    row(rt, "the second", &mut four, &[1], &[4])?;
    row(rt, "the third", &mut four, &[1, 1, 1], &[2, 6, 6])?;
    row(rt, "the fourth", &mut four, &[1], &[6])
}

// Maps of 64 by 80 cells with LS 1, but for two cells with 200,000.
pub(crate) fn blocks(rt: &impl Print) -> io::Result<()> {
    high_at(rt, "cells 4095 and 4096", 4095, 4096)?;
    high_at(rt, "cells 4096 and 5119", 4096, 5119)?;
    high_at(rt, "cells 0 and 5000", 5000, 0)
}

fn high_at(rt: &impl Print, name: &str, first: usize, second: usize) -> io::Result<()>
    requires first_in { first < 5120 }
    requires second_in { second < 5120 }
{
    let mut factors = [1; 5120];
    factors[first] = 200000;
    factors[second] = 200000;
    let mut report = Report::empty();
    let answer = report::add(&mut report, 64, 80, no_channel(), &[1; 5120], &factors);
    show::answered(rt, name, answer, report)
}
