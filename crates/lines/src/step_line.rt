//! Reading a line as a step.
ghost use Rattle.std.specs.Prelude.{◌≡◌, ◌<◌, IfErr, IfOk, OnOk};
ghost use Rattle.lines.specs.Faults.{IsFirstFault, forms_of_step};
ghost use Rattle.lines.specs.Lines.{line_of, words_in};
ghost use Rattle.lines.specs.Reading.{behind_own, behind_target, step_from, pocket_at, task_from, task_in};
ghost use Rattle.lines.specs.Spelled.{ArePockets, pockets, task_words};
ghost use Rattle.lines.specs.Steps.{read_as, step_values, task_values};
ghost use Rattle.lines.specs.Verbs.{fills};
ghost use Rattle.lines.specs.declared.verb.Verb.TheVariants.{Enter, File};

use crate::error::Misread;
use crate::line::is_well_formed;
use crate::pocket::Pocket;
use crate::step::{Step, Task};
use crate::verb::{Verb, verb_of};
use crate::words::Words;

/// The own words of `enter`: a name, a pocket and three masks.
fn read_enter<'l>(words: &mut Words<'l>) -> Result<Step<'l>, Misread>
    requires { words.old.number ≡ 3 }
    ensures step { read_as step_values result ≡ step_from Enter (words_in words.old.line.now) }
    ensures line { words.new.line.now ≡ words.old.line.now }
    ensures number { OnOk result (words.new.number ≡ behind_own Enter) }
{
    Ok(Step::Enter {
        name: words.text()?,
        entry: words.pocket()?,
        works: words.mask()?,
        inspector: words.mask()?,
        buyer: words.mask()?,
    })
}

/// The own words of `file`: a secret and a text.
fn read_file<'l>(words: &mut Words<'l>) -> Result<Step<'l>, Misread>
    requires { words.old.number ≡ 3 }
    ensures step { read_as step_values result ≡ step_from File (words_in words.old.line.now) }
    ensures line { words.new.line.now ≡ words.old.line.now }
    ensures number { OnOk result (words.new.number ≡ behind_own File) }
{
    Ok(Step::File {
        secret: words.decimal()?,
        text: words.text()?,
    })
}

/// The own words of a step.
fn read_own<'l>(verb: Verb, words: &mut Words<'l>) -> Result<Step<'l>, Misread>
    requires { words.old.number ≡ 3 }
    ensures step { read_as step_values result ≡ step_from verb (words_in words.old.line.now) }
    ensures line { words.new.line.now ≡ words.old.line.now }
    ensures number { OnOk result (words.new.number ≡ behind_own verb) }
{
    match verb {
        Verb::File => read_file(words),
        Verb::Directory => words.decimal().map(|secret| Step::Directory { secret }),
        Verb::Read => Ok(Step::Read),
        Verb::Size => Ok(Step::Size),
        Verb::Drop => words.decimal().map(|right| Step::Drop { right }),
        Verb::Give => Ok(Step::Give),
        Verb::Enter => read_enter(words),
        Verb::Remove => words.text().map(|name| Step::Remove { name }),
        Verb::LookUp => words.text().map(|name| Step::LookUp { name }),
        Verb::Walk => words.text().map(|path| Step::Walk { path }),
        Verb::Row => words.decimal().map(|n| Step::Row { n }),
        Verb::Name => words.pocket().map(|entry| Step::Name { entry }),
        Verb::Destroy => Ok(Step::Destroy),
        Verb::Revoke => words.decimal().map(|secret| Step::Revoke { secret }),
    }
}

/// The pocket that a step fills, if it fills one.
fn read_target(verb: Verb, words: &mut Words) -> Result<Option<Pocket>, Misread>
    requires few { words.old.number < 255 }
    ensures target { result
        ≡ pocket_at (fills verb) words.old.number (words_in words.old.line.now) }
    ensures line { words.new.line.now ≡ words.old.line.now }
    ensures number { OnOk result (words.new.number ≡ behind_target (fills verb) words.old.number) }
{
    if !verb.fills() {
        return Ok(None);
    }
    words.pocket().map(Some)
}

/// The words behind a verb.
fn read_behind<'l>(verb: Verb, mut words: Words<'l>) -> Result<Task<'l>, Misread>
    requires { words.number ≡ 2 }
    ensures { read_as task_values result ≡ task_from verb (words_in words.entry.line.now) }
{
    let presented = words.pocket()?;
    let step = read_own(verb, &mut words)?;
    let target = read_target(verb, &mut words)?;
    words.end()?;
    Ok(Task {
        presented,
        step,
        target,
    })
}

/// The value that `read_step` gives, from which its other clauses follow.
fn read_whole(line: &[u8]) -> Result<Task<'_>, Misread>
    ensures { read_as task_values result ≡ task_in line.now }
{
    if !is_well_formed(line) {
        return Err(Misread { place: 0 });
    }
    let mut words = Words::of(line);
    let verb = verb_of(words.take().bytes).ok_or(Misread { place: 1 })?;
    read_behind(verb, words)
}

/// Reads a line as a step with its pockets, or tells its first fault.
///
/// A line that opens a store is no step.
pub fn read_step(line: &[u8]) -> Result<Task<'_>, Misread>
    ensures value { read_as task_values result ≡ task_in line.now }
    ensures spelled { IfOk result (λ task. line_of (task_words (task_values task)) ≡ line.now) }
    ensures within { IfOk result (λ task. ArePockets (pockets (task_values task))) }
    ensures first { IfErr result (λ fault. IsFirstFault forms_of_step line.now fault.place) }
{
    read_whole(line)
}
