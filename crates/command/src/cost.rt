//! The time and the memory of a run.
use crate::about::Entry;
use crate::call::Call;
use crate::system::System;
use std::alloc::AllocError;
use std::fmt::Display;
use std::fs;
use std::rt::{Clock, Files};
use std::time::Instant;

/// The option that prints statistics.
pub const STATS: Entry<'static> = Entry {
    name: "--stats",
    text: "print statistics to standard error at the end, as lines c NAME NUMBER",
};

/// The option that prints them as JSON.
pub const JSON: Entry<'static> = Entry {
    name: "--json",
    text: "print statistics to standard error at the end, as one line of JSON",
};

/// How statistics are printed.
#[derive(Clone, Copy)]
pub enum StatsForm {
    /// A line `c NAME NUMBER` for each.
    Lines,
    /// One line, an object of JSON.
    Json,
}

impl StatsForm {
    /// Returns how the call wants statistics, or None if it does not want any.
    pub fn of(call: &Call<'_>) -> Option<StatsForm> {
        if call.has(JSON.name) {
            Some(StatsForm::Json)
        } else if call.has(STATS.name) {
            Some(StatsForm::Lines)
        } else {
            None
        }
    }

    /// Adds a figure to those of a text.
    fn add<D: Display>(
        self,
        figures: &mut String,
        name: &str,
        figure: &D,
    ) -> Result<(), AllocError> {
        let is_first = figures.is_empty();
        match self {
            StatsForm::Lines if is_first => write!(figures, "c {name} {figure}"),
            StatsForm::Lines => write!(figures, "\nc {name} {figure}"),
            StatsForm::Json if is_first => write!(figures, "\"{name}\": {figure}"),
            StatsForm::Json => write!(figures, ", \"{name}\": {figure}"),
        }
    }
}

/// When a run began, if the clock reports it.
#[derive(Clone, Copy)]
pub struct Cost {
    began: Option<Instant>,
}

impl Cost {
    /// Returns the cost of a run that begins now.
    pub fn from_now<C: Clock>(rt: &C) -> Cost {
        Cost {
            began: Instant::now(rt).ok(),
        }
    }

    /// Prints these counts to standard error, and then how many seconds the run took so far and how
    /// many kilobytes of memory it had at most, each if the system reports it. Nothing is printed
    /// if there is no memory for the text.
    pub fn say<S: System>(self, rt: &S, form: StatsForm, counts: &[(&str, u64)]) {
        let Ok(figures) = self.figures(rt, form, counts) else {
            return;
        };
        let _ = match form {
            StatsForm::Lines => eprintln!(rt; "{figures}"),
            StatsForm::Json => eprintln!(rt; "{{{figures}}}"),
        };
    }

    fn figures<S: System>(
        self,
        rt: &S,
        form: StatsForm,
        counts: &[(&str, u64)],
    ) -> Result<String, AllocError> {
        let mut figures = String::new(rt.alloc());
        for (name, number) in counts {
            form.add(&mut figures, name, number)?;
        }
        if let Some(began) = self.began
            && let Ok(time) = began.elapsed(rt)
        {
            let (seconds, millis) = (time.as_secs(), time.subsec_millis());
            let seconds = format!(in rt.alloc(); "{seconds}.{millis:03}")?;
            form.add(&mut figures, "seconds", &seconds)?;
        }
        if let Some(most) = rt.peak_kilobytes() {
            form.add(&mut figures, "memory_kb", &most)?;
        }
        Ok(figures)
    }
}

/// Returns the number after a name, in a file in which the system reports kilobytes.
pub(crate) fn kilobytes<R: Files + AllocGlobal>(rt: &R, file: &str, name: &str) -> Option<u64> {
    let told = fs::read_to_string(rt, file).ok()?;
    let line = told.as_str().lines().find(|line| line.starts_with(name))?;
    line.split_ascii_whitespace().nth(1)?.parse().ok()
}
