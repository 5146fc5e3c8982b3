//! The report of a session, and its text.
ghost use Rattle.std.specs.Prelude.{◌≡◌, ◌<◌, [], ◌++◌, codes, length, slice_get, Some, IsSome, IfOk, OnOk};
ghost use Rattle.life_script.specs.Texts.{act_text, answer_text};
ghost use Rattle.life_session.specs.Report.{Fits, event_lines, turn_of, turn_lines, steps_lines, end_lines, ends_lines, total_line, report_text};

use life_core::{Event, Got, Octets};
use life_script::{Act, Answer, Step, Steps, TextBuilder, Told, ToldList, Turn};
use std::alloc::Global;
use std::marker::Model;

/// What is told of each request, with the steps that were made and the time of the end, in nanoseconds.
/// Each step is of a request that is told of, and each request has one turn for each of its steps.
#[derive(Debug, Drop)]
pub struct Report {
    pub(crate) told: ToldList,
    pub(crate) steps: Steps,
    pub(crate) end: u64,
}

impl Model for Report {
    ghost use Rattle.life_session.specs.Report.{Fits, ReportView};

    ghost Value = { ReportView };

    ghost view = { λ r. record { told = r.told.items; steps = r.steps.items; end = r.end } };

    ghost invariant = { λ r. Fits r.told.items r.steps.items };
}

impl Report {
    /// How many requests there are.
    pub fn requests(&self) -> u64
        ensures count { result ≡ length self.now.told }
        ensures fits { Fits self.now.told self.now.steps }
    {
        self.told.len()
    }

    /// What is told of the request of a number.
    pub fn told(&self, i: u64) -> &Told
        requires { i < length self.now.told }
        ensures { slice_get self.now.told i ≡ Some result.now }
    {
        &self.told.as_slice()[i as usize]
    }

    /// What is told of all requests, in the order of their numbers.
    pub fn all_told(&self) -> &[Told]
        ensures told { result.now ≡ self.now.told }
        ensures fits { Fits self.now.told self.now.steps }
    {
        self.told.as_slice()
    }

    /// The steps, in the order in which they were made.
    pub fn steps(&self) -> &Steps
        ensures { result.now.items ≡ self.now.steps }
    {
        &self.steps
    }

    /// The time of the end, in nanoseconds.
    pub fn end(&self) -> u64
        ensures { result ≡ self.now.end }
    {
        self.end
    }
}

/// Puts events, each in a line of its own. What is put stands behind what the text held, here as below.
fn put_events(text: &mut TextBuilder, events: &[Event]) -> Got<()>
    ensures { OnOk result (text.new ≡ text.old ++ event_lines events.now) }
{
    for event in events {
        text.text("  ")?;
        text.event(event)?;
        text.text("\n")?;
    }
    Ok(())
}

/// An act as it stands in the line of a step, which is put at once.
fn act_piece(act: Act) -> &'static str
    ensures { result.now ≡ codes " " ++ act_text act ++ codes ": " }
{
    match act {
        Act::Call => " call: ",
        Act::Poll => " poll: ",
        Act::Drop => " drop: ",
    }
}

/// Puts an answer and the end of its line, at once where the answer is a word.
fn put_answer(text: &mut TextBuilder, answer: &Answer) -> Got<()>
    ensures { OnOk result (text.new ≡ text.old ++ answer_text answer.now ++ codes "\n") }
{
    match answer {
        Answer::Called => text.text("called\n"),
        Answer::Idle => text.text("idle\n"),
        Answer::Pending => text.text("pending\n"),
        Answer::End => text.text("end\n"),
        Answer::Dropped => text.text("dropped\n"),
        _ => {
            text.answer(answer)?;
            text.text("\n")
        }
    }
}

/// Puts the line of a step, and those of its events.
fn put_turn(text: &mut TextBuilder, k: u64, step: &Step, turn: &Turn) -> Got<()>
    ensures { OnOk result (text.new ≡ text.old ++ turn_lines k step.now turn.now) }
{
    text.text("step ")?;
    text.number(k)?;
    text.text(" at ")?;
    text.number(step.at)?;
    text.text(" request ")?;
    text.number(step.request)?;
    text.text(act_piece(step.act))?;
    put_answer(text, &turn.answer)?;
    put_events(text, turn.events.as_slice())
}

/// The turn of a number of the request of a number.
fn turn_at(told: &[Told], i: usize, n: u64) -> &Turn
    requires within { i < length told.now }
    requires turn { IsSome (turn_of told.now i n) }
    ensures { turn_of told.now i n ≡ Some result.now }
{
    let told = &told[i];
    &told.turns.as_slice()[n as usize]
}

/// Puts the lines of all steps, each with the next turn of its request.
fn put_steps(alloc: Global, text: &mut TextBuilder, told: &[Told], steps: &[Step]) -> Got<()>
    requires { Fits told.now steps.now }
    ensures { OnOk result (text.new ≡ text.old ++ steps_lines told.now [] steps.now) }
{
    // how many steps of each request were made, which is the number of its next turn
    let mut made = vec![in alloc; 0u64; told.len()]?;
    for (k, step) in steps.iter().enumerate() {
        let i = step.request as usize;
        let n = made[i];
        made[i] = n + 1;
        put_turn(text, k as u64, step, turn_at(told, i, n))?;
    }
    Ok(())
}

/// Puts the lines of what was recorded where a request was dropped, or nothing where nothing was.
fn put_end(text: &mut TextBuilder, end: u64, i: u64, told: &Told) -> Got<()>
    ensures { OnOk result (text.new ≡ text.old ++ end_lines end i told.now.at_end) }
{
    if told.at_end.is_empty() {
        return Ok(());
    }
    text.text("end at ")?;
    text.number(end)?;
    text.text(" request ")?;
    text.number(i)?;
    text.text("\n")?;
    put_events(text, told.at_end.as_slice())
}

/// Puts the lines of what was recorded where each request was dropped.
fn put_ends(text: &mut TextBuilder, end: u64, told: &[Told]) -> Got<()>
    ensures { OnOk result (text.new ≡ text.old ++ ends_lines end 0 told.now) }
{
    for (i, told) in told.iter().enumerate() {
        put_end(text, end, i as u64, told)?;
    }
    Ok(())
}

/// Puts the line of the totals.
fn put_total(text: &mut TextBuilder, requests: u64, steps: u64, end: u64) -> Got<()>
    ensures { OnOk result (text.new ≡ text.old ++ total_line requests steps end) }
{
    text.text("total: ")?;
    text.number(requests)?;
    text.text(" requests, ")?;
    text.number(steps)?;
    text.text(" steps, end ")?;
    text.number(end)?;
    text.text("\n")
}

/// The text of a report: the lines of its steps, of its ends and of its totals.
pub fn report_text(alloc: Global, report: &Report) -> Got<Octets>
    ensures { IfOk result (λ octets. octets ≡ report_text report.now) }
{
    let told = report.all_told();
    let steps = report.steps().as_slice();
    let end = report.end();
    let mut text = TextBuilder::new(alloc);
    put_steps(alloc, &mut text, told, steps)?;
    put_ends(&mut text, end, told)?;
    put_total(&mut text, told.len() as u64, steps.len() as u64, end)?;
    Ok(text.finish())
}
