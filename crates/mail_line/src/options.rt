//! The options that are given.
ghost use Rattle.std.specs.Prelude.{◌≡◌};
ghost use Rattle.clap.specs.Words.{found_of, rows_of};
ghost use Rattle.mail_line.specs.CommandLine.{has_none, options_in, number_given, bits_given, is_bit_count, is_set};

use crate::number::number_in;
use clap::ArgMatches;

/// The numbers of options that are given, each within its bounds, and whether a report is wanted.
#[derive(Clone, Copy)]
pub(crate) struct Options {
    pub(crate) workers: Option<u64>,
    pub(crate) ring: Option<u64>,
    pub(crate) bits: Option<u64>,
    pub(crate) report: bool,
    pub(crate) generate: Option<u64>,
}

impl Options {
    /// Whether no option is given.
    pub(crate) fn has_none(&self) -> bool
        ensures { result ≡ has_none self.now }
    {
        self.workers.is_none()
            && self.ring.is_none()
            && self.bits.is_none()
            && !self.report
            && self.generate.is_none()
    }
}

/// The options that are given; none at all where one has a value that it can't have.
pub(crate) fn options_in(matches: &ArgMatches) -> Option<Options>
    ensures { result ≡ options_in (rows_of (found_of matches.now)) }
{
    Some(Options {
        workers: number_given(matches, "workers", 1, 64)?,
        ring: number_given(matches, "ring", 1, 4_096)?,
        bits: bits_given(matches)?,
        report: is_set(matches, "report"),
        generate: number_given(matches, "generate", 0, 100_000)?,
    })
}

/// Whether a flag is set.
pub(crate) fn is_set(matches: &ArgMatches, flag: &str) -> bool
    ensures { result ≡ is_set flag.now (rows_of (found_of matches.now)) }
{
    match matches.get_str(flag) {
        Some(text) => text == "true",
        None => false,
    }
}

// How many bits a signature has, if they are given; none at all where it can't have so many.
fn bits_given(matches: &ArgMatches) -> Option<Option<u64>>
    ensures { result ≡ bits_given (rows_of (found_of matches.now)) }
{
    match number_given(matches, "bits", 64, 1_024)? {
        Some(bits) if !is_bit_count(bits) => None,
        given => Some(given),
    }
}

// How many bits a signature may have.
fn is_bit_count(bits: u64) -> bool
    ensures { result ≡ is_bit_count bits }
{
    matches!(bits, 64 | 128 | 256 | 512 | 1_024)
}

// The number that an option has, if it is given; none at all where its value is no number within the bounds.
fn number_given(matches: &ArgMatches, option: &str, low: u64, high: u64) -> Option<Option<u64>>
    ensures { result ≡ number_given option.now low high (rows_of (found_of matches.now)) }
{
    match matches.get_str(option) {
        Some(text) => match number_in(low, high, text) {
            Some(number) => Some(Some(number)),
            None => None,
        },
        None => Some(None),
    }
}
