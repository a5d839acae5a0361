// The calendar: dates, whether they exist, their day numbers; and terms.
// Entry points: is_date, day_number, is_term. None has a `requires`: any numbers are taken.
#![tactic(auto)]

ghost use Rattle.std.specs.Prelude.{◌≡◌, false, ◌-◌, ◌≤◌};
ghost use Rattle.dates.specs.Calendar.{is_leap, days_in_month, is_date, days_of_years, days_of_months, day_of};
ghost use Rattle.dates.specs.Terms.{is_term};
ghost use Rattle.dates.specs.declared.Term.TheVariants.{Between};

// A date as a caller gives it: any three numbers.
#[derive(Clone, Copy)]
pub struct Date {
    pub year: u32,
    pub month: u32,
    pub day: u32,
}

// The days on which a recipe may be read: all, or those from the first to the last, both inside. No Option: `Unlimited` says what `None` would leave
// to be known.
#[derive(Clone, Copy)]
pub enum Term {
    Unlimited,
    Between { first: Date, last: Date },
}

// The year has a 29 February.
fn is_leap(year: u32) -> bool
    ensures { result ≡ is_leap year }
{
    year % 4 == 0 && (year % 100 != 0 || year % 400 == 0)
}

// The days of a month.
fn days_in_month(leap: bool, month: u32) -> u32
    ensures { result ≡ days_in_month leap month }
{
    match month {
        2 if leap => 29,
        2 => 28,
        4 | 6 | 9 | 11 => 30,
        _ => 31,
    }
}

// The date exists, and lies in 2000 to 2199.
pub fn is_date(d: Date) -> bool
    ensures { result ≡ is_date d }
{
    (2000..=2199).contains(&d.year)
        && (1..=12).contains(&d.month)
        && (1..=days_in_month(is_leap(d.year), d.month)).contains(&d.day)
}

// The days of the first n years from 2000 on: 365 each, and one for each leap year among them. 2000 is itself a fourth, a hundredth and a four
// hundredth year, so each division rounds up.
fn years_days(n: usize) -> usize
    requires { n ≤ 199 }
    ensures { (result ≡ days_of_years n) × (result ≤ 72684) }
{
    365 * n + (n + 3) / 4 - (n + 99) / 100 + (n + 399) / 400
}

// The days of the months before this one, in a year that is no leap year.
fn common_days(month: u32) -> usize
    requires { (1 ≤ month) × (month ≤ 12) }
    ensures { (result ≡ days_of_months false (month - 1)) × (result ≤ 334) }
{
    match month {
        1 => 0,
        2 => 31,
        3 => 59,
        4 => 90,
        5 => 120,
        6 => 151,
        7 => 181,
        8 => 212,
        9 => 243,
        10 => 273,
        11 => 304,
        _ => 334,
    }
}

// The days of the months before this one: a leap year has one more after February.
fn months_days(leap: bool, month: u32) -> usize
    requires { (1 ≤ month) × (month ≤ 12) }
    ensures { (result ≡ days_of_months leap (month - 1)) × (result ≤ 335) }
{
    let days = common_days(month);
    if leap && 2 < month { days + 1 } else { days }
}

// The date's day number, 1 January 2000 being 0; 0 also where there is no such date.
pub fn day_number(d: Date) -> usize
    ensures { (result ≡ day_of d) × (result ≤ 73048) }
{
    if !is_date(d) {
        return 0;
    }
    let years = years_days((d.year - 2000) as usize);
    let months = months_days(is_leap(d.year), d.month);
    years + months + (d.day - 1) as usize
}

// The term of these two dates: both exist, and the first is not after the last.
fn is_span(first: Date, last: Date) -> bool
    ensures { result ≡ is_term (Between first last) }
{
    is_date(first) && is_date(last) && day_number(first) <= day_number(last)
}

// Unlimited, or dates of which the first is not after the last.
pub fn is_term(t: Term) -> bool
    ensures { result ≡ is_term t }
{
    match t {
        Term::Unlimited => true,
        Term::Between { first, last } => is_span(first, last),
    }
}
