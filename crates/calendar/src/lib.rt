// Document 02, M-104: third Fridays, by "a calculation from year and month".
#![tactic(auto)]

ghost use Rattle.std.specs.Prelude.{◌≡◌};
ghost use Rattle.rules.specs.Series.{is_third_friday, third_friday};

// The third Friday of a month, January 2000 being month 0. Months and years are counted from March of the year 0, so that a leap day is the last of its year.
fn third_friday(month: u32) -> u64
    ensures { result ≡ third_friday month }
{
    let months = month as u64 + 23_998;
    let years = months / 12;
    let leap_years = years / 4 - years / 100 + years / 400;
    let days = years * 365 + leap_years + (months % 12 * 153 + 2) / 5;
    21 - (days + 4) % 7
}

// Whether a day is the third Friday of a month.
pub fn is_third_friday(month: u32, day: u32) -> bool
    ensures { result ≡ is_third_friday month day }
{
    day as u64 == third_friday(month)
}
