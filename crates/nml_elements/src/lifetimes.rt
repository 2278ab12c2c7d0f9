ghost use Rattle.std.specs.Prelude.{◌≡◌};
ghost use Rattle.nml_elements.specs.Lifetimes.{IsInterval, IsLifespan, ends_above, exists_throughout, interval, is_up_to, lifespan};

use std::marker::Model;

/// How long an element exists: from its start on, and up to its end if it has one. The end is above the start.
/// Contracts see it as a `Lifespan`.
#[derive(Clone, Copy, Debug, PartialEq, Eq)]
pub struct Lifetime {
    start: u64,
    end: Option<u64>,
}

impl Model for Lifetime {
    ghost use Rattle.nml_elements.specs.Lifetimes.{IsLifespan, Lifespan};

    ghost Value = { Lifespan };

    ghost view = { λ life. record { start = life.start; end = life.end } };

    ghost inverse = { λ life. record { start = life.start; end = life.end } };

    ghost invariant = { λ life. IsLifespan (record { start = life.start; end = life.end }) };
}

fn ends_above(start: u64, end: Option<u64>) -> bool
    ensures { result ≡ ends_above start end }
{
    match end {
        Some(end) => start < end,
        None => true,
    }
}

impl Lifetime {
    /// The lifetime from this start up to this end, if the end is above the start; without an end it never ends.
    pub fn new(start: u64, end: Option<u64>) -> Option<Lifetime>
        ensures { result ≡ lifespan start end }
    {
        if !ends_above(start, end) {
            return None;
        }
        Some(Lifetime { start, end })
    }

    /// When it begins.
    pub fn start(&self) -> u64
        ensures start { result ≡ self.now.start }
        ensures life { IsLifespan self.now }
    {
        self.start
    }

    /// Up to when it lasts, if it ends.
    pub fn end(&self) -> Option<u64>
        ensures end { result ≡ self.now.end }
        ensures life { IsLifespan self.now }
    {
        self.end
    }
}

/// A time from one moment up to a later one. Contracts see it as an `Interval`.
#[derive(Clone, Copy, Debug, PartialEq, Eq)]
pub struct Window {
    from: u64,
    to: u64,
}

impl Model for Window {
    ghost use Rattle.nml_elements.specs.Lifetimes.{Interval, IsInterval};

    ghost Value = { Interval };

    ghost view = { λ window. record { from = window.from; to = window.to } };

    ghost inverse = { λ window. record { from = window.from; to = window.to } };

    ghost invariant = { λ window. IsInterval (record { from = window.from; to = window.to }) };
}

impl Window {
    /// The window between these two moments, if the second is above the first.
    pub fn new(from: u64, to: u64) -> Option<Window>
        ensures { result ≡ interval from to }
    {
        if from >= to {
            return None;
        }
        Some(Window { from, to })
    }

    /// Where it begins.
    pub fn from(&self) -> u64
        ensures from { result ≡ self.now.from }
        ensures window { IsInterval self.now }
    {
        self.from
    }

    /// Where it ends.
    pub fn to(&self) -> u64
        ensures to { result ≡ self.now.to }
        ensures window { IsInterval self.now }
    {
        self.to
    }
}

fn is_up_to(time: u64, end: Option<u64>) -> bool
    ensures { result ≡ is_up_to time end }
{
    match end {
        Some(end) => time <= end,
        None => true,
    }
}

/// Whether what has this lifetime, or none, exists throughout the window.
pub fn exists_throughout(window: &Window, lifetime: &Option<Lifetime>) -> bool
    ensures { result ≡ exists_throughout window.now lifetime.now }
{
    match lifetime {
        Some(life) => life.start() <= window.from() && is_up_to(window.to(), life.end()),
        None => true,
    }
}
