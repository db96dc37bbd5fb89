// What a policy's rows allow.
use crate::endings::{Ending, Stop};
use crate::rules::SecondMonitor;
use crate::values::{Arg, Call, Cell};

impl SecondMonitor {
    /// The first row that fits the call is used; without one the call is refused.
    pub(crate) fn decide(&mut self, call: &Call) -> Result<(), Stop> {
        self.calls = self.calls.wrapping_add(1);
        let name = self.setting.program().name_of(call.function);
        for (place, row) in self.setting.policy().lines().enumerate() {
            let used = self.used.iter().filter(|rule| **rule == place).count();
            if let Some(then) = allowed(row, self.state, name, &call.args, used) {
                self.used.push(place)?;
                self.state = then;
                return Ok(());
            }
        }
        Err(Stop::Ends(Ending::Refused(self.calls, call.function)))
    }
}

// The next state, where this row that was used so often fits a call in a state.
fn allowed<'a>(
    row: &'a str,
    state: &str,
    name: &str,
    args: &[Arg],
    used: usize,
) -> Option<&'a str> {
    let (from, rest) = row.strip_prefix("from ")?.split_once(" allow ")?;
    let (function, rest) = rest.split_once(" ")?;
    let (bounds, then) = rest.split_once("to ")?;
    if from != state || function != name {
        return None;
    }
    let mut position = 0;
    for word in bounds.split(" ") {
        if let Some(number) = word.strip_prefix("arg") {
            position = number.parse::<usize>().ok()?;
        } else if let Some((least, most)) = word.split_once("..") {
            let number = number_at(args, position)?;
            if number < least.parse::<i128>().ok()? || number > most.parse::<i128>().ok()? {
                return None;
            }
        } else if let Ok(most) = word.parse::<usize>()
            && used >= most
        {
            return None;
        }
    }
    Some(then)
}

// The number that is the argument of this position, counted from 1.
fn number_at(args: &[Arg], position: usize) -> Option<i128> {
    match args.get(position.checked_sub(1)?)? {
        Arg::Cell(Cell::Number(number)) => Some(*number),
        _ => None,
    }
}
