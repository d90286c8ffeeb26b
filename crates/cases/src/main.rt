// Runs the public entries on the cases of standard input, records of 160 bytes, and prints a line for each.
// The module `case_record` of host/reference has the layout of a record and of its line.
#![tactic(auto)]

ghost use Rattle.std.specs.Prelude.{◌≡◌, ◌≤◌, length};

use case_lines::record::{input, order, series, slice_length};
use case_lines::{print_answer, print_values};
use field::Outcome;
use job::{Job, Opening};
use reading::read_record;
use session::{Reply, Session};
use std::{array, io};

fn field_case(rt: &impl Print, op: u8, q: u8, a: u8, b: u8) -> io::Result<()> {
    let answer = match op {
        b'+' => field::entry::sum(q, a, b),
        b'*' => field::entry::product(q, a, b),
        _ => field::entry::inverse(q, a),
    };
    print_answer(rt, op, answer.map(|_| ()))?;
    rt.println(answer.unwrap_or(0))
}

fn run_on_slices(
    op: u8,
    q: u8,
    series: u8,
    m: u16,
    session: Session,
    input: &[u8],
    output: &mut [u8],
) -> Outcome {
    match op {
        b'e' => code::encoding::encode(q, series, m, input, output),
        b'u' => code::unencoding::unencode(q, series, m, input, output),
        b'r' => recovery::recover(q, series, m, input, output),
        b'C' => code::conversion::convert(q, series, input, output),
        _ => session.ask(output),
    }
}

fn slice_answer(
    rt: &impl Print,
    op: u8,
    q: u8,
    series: u8,
    m: u16,
    session: Session,
    input: &[u8],
    output: &mut [u8],
) -> io::Result<()> {
    let outcome = run_on_slices(op, q, series, m, session, input, output);
    print_answer(rt, op, outcome)?;
    print_values(rt, output, b'\n')
}

fn slice_case(rt: &impl Print, session: Session, record: [u8; 160]) -> io::Result<()> {
    let mut lent = record;
    let output_end = 80 + slice_length(record[4]);
    slice_answer(
        rt,
        record[0],
        record[1],
        series(&record),
        order(&record),
        session,
        input(&record),
        &mut lent[80..output_end],
    )
}

fn mend_answer(
    rt: &impl Print,
    q: u8,
    series: u8,
    m: u16,
    word: &[u8],
    message: &mut [u8],
    mended: &mut [u8],
    marks: &mut [u8],
) -> io::Result<()> {
    let answer = mend::mend(q, series, m, word, message, mended, marks);
    print_answer(rt, b'm', answer.map(|_| ()))?;
    print!(rt; "{} ", answer.unwrap_or(0))?;
    print_values(rt, message, b' ')?;
    print_values(rt, mended, b' ')?;
    print_values(rt, marks, b'\n')
}

// Each slice of the mender is lent from a copy of the record of its own.
fn mend_case(rt: &impl Print, record: [u8; 160]) -> io::Result<()> {
    let mut message = record;
    let mut mended = record;
    let mut marks = record;
    let message_end = 80 + slice_length(record[4]);
    let mended_end = 80 + slice_length(record[5]);
    let marks_end = 80 + slice_length(record[6]);
    mend_answer(
        rt,
        record[1],
        series(&record),
        order(&record),
        input(&record),
        &mut message[80..message_end],
        &mut mended[80..mended_end],
        &mut marks[80..marks_end],
    )
}

// 64 bytes of a record, from `start` on.
fn bytes_from(start: usize, record: [u8; 160]) -> [u8; 64]
    requires { start ≤ 96 }
{
    let mut bytes = [0u8; 64];
    bytes.copy_from_slice(&record[start..start + 64]);
    bytes
}

// A session with the series, places and rounds of a record.
fn raw_session(record: [u8; 160]) -> Session {
    let places = bytes_from(8, record);
    let rounds = bytes_from(80, record);
    Session {
        q: record[1],
        series: series(&record),
        m: order(&record),
        places,
        rounds,
    }
}

fn session_reply(session: Session, record: [u8; 160]) -> Reply {
    match record[0] {
        b'o' => session::open(record[1], series(&record), order(&record)),
        b's' => Reply {
            session: raw_session(record),
            outcome: Ok(()),
        },
        _ => session.arrive(
            u16::from_le_bytes([record[5], record[153]]),
            record[6],
            record[7],
        ),
    }
}

// q, with the series after it but for series 1, and m, of a session or job; a space after each.
fn print_parameters(rt: &impl Print, q: u8, series: u8, m: u16) -> io::Result<()> {
    rt.print(q)?;
    if series != 1 {
        print!(rt; "/{series}")?;
    }
    print!(rt; " {m} ")
}

fn session_case(rt: &impl Print, session: Session, record: [u8; 160]) -> io::Result<Session> {
    let reply = session_reply(session, record);
    let next = reply.session;
    print_answer(rt, record[0], reply.outcome)?;
    print_parameters(rt, next.q, next.series, next.m)?;
    print_values(rt, &next.places, b' ')?;
    print_values(rt, &next.rounds, b'\n')?;
    Ok(next)
}

// The places of eighteen arrivals, of which each has four bytes of the input: the place, the symbol and the round.
fn arrival_places(record: [u8; 160]) -> [u16; 18]
    ensures { length result ≡ 18 }
{
    array::from_fn(|i| u16::from_le_bytes([record[8 + 4 * i], record[9 + 4 * i]]))
}

// Every fourth of 72 bytes of a record, from `start` on.
fn every_fourth(start: usize, record: [u8; 160]) -> [u8; 18]
    requires { start ≤ 88 }
    ensures { length result ≡ 18 }
{
    array::from_fn(|i| record[start + 4 * i])
}

fn replay_answer(
    rt: &impl Print,
    record: [u8; 160],
    count: usize,
    message: &mut [u8],
) -> io::Result<()>
    requires { count ≤ 18 }
{
    let places = arrival_places(record);
    let symbols = every_fourth(10, record);
    let rounds = every_fourth(11, record);
    let outcome = session::replay::replay(
        record[1],
        series(&record),
        order(&record),
        &places[..count],
        &symbols[..count],
        &rounds[..count],
        message,
    );
    print_answer(rt, b'p', outcome)?;
    print_values(rt, message, b'\n')
}

fn replay_case(rt: &impl Print, record: [u8; 160]) -> io::Result<()> {
    let mut lent = record;
    let message_end = 80 + slice_length(record[4]);
    let count = slice_length(record[3]) / 4;
    replay_answer(rt, record, count, &mut lent[80..message_end])
}

fn turns_answer(
    rt: &impl Print,
    q: u8,
    series: u8,
    m: u16,
    word: &[u8],
    budgets: &[u8],
    message: &mut [u8],
) -> io::Result<()> {
    let outcome = job::turns::recover_in_turns(q, series, m, word, budgets, message);
    print_answer(rt, b't', outcome)?;
    print_values(rt, message, b'\n')
}

fn turns_case(rt: &impl Print, record: [u8; 160]) -> io::Result<()> {
    let mut lent = record;
    let budgets = [record[5], record[6], record[7]];
    let message_end = 80 + slice_length(record[4]);
    turns_answer(
        rt,
        record[1],
        series(&record),
        order(&record),
        input(&record),
        &budgets,
        &mut lent[80..message_end],
    )
}

// The places of a record, of a byte each.
fn low_places(record: [u8; 160]) -> [u16; 72]
    ensures { length result ≡ 72 }
{
    array::from_fn(|i| u16::from(record[8 + i]))
}

// The same with the high byte that one of them has. Byte 6 says which.
fn chosen_places(record: [u8; 160]) -> [u16; 72]
    ensures { length result ≡ 72 }
{
    let mut places = low_places(record);
    let i = usize::from(record[6]);
    if i < 72 {
        places[i] = u16::from_le_bytes([record[8 + i], record[153]]);
    }
    places
}

fn encode_at_answer(
    rt: &impl Print,
    q: u8,
    series: u8,
    m: u16,
    places: &[u16],
    symbols: &[u8],
    word: &mut [u8],
) -> io::Result<()> {
    let outcome = systematic::encode_at(q, series, m, places, symbols, word);
    print_answer(rt, b'E', outcome)?;
    print_values(rt, word, b'\n')
}

fn encode_at_case(rt: &impl Print, record: [u8; 160]) -> io::Result<()> {
    let places = chosen_places(record);
    let mut word = [record[7]; 72];
    let count = slice_length(record[3]);
    let symbols_end = 80 + slice_length(record[4]);
    let word_end = slice_length(record[5]);
    encode_at_answer(
        rt,
        record[1],
        series(&record),
        order(&record),
        &places[..count],
        &record[80..symbols_end],
        &mut word[..word_end],
    )
}

fn run_on_columns(
    op: u8,
    q: u8,
    columns: &[u8],
    m: u16,
    input: &[u8],
    output: &mut [u8],
) -> Outcome {
    match op {
        b'X' => chosen_columns::encode_on(q, columns, m, input, output),
        b'U' => chosen_columns::unencode_on(q, columns, m, input, output),
        _ => chosen_columns::recover_on(q, columns, m, input, output),
    }
}

fn columns_answer(
    rt: &impl Print,
    op: u8,
    q: u8,
    columns: &[u8],
    m: u16,
    input: &[u8],
    output: &mut [u8],
) -> io::Result<()> {
    let outcome = run_on_columns(op, q, columns, m, input, output);
    print_answer(rt, op, outcome)?;
    print_values(rt, output, b'\n')
}

// The columns stand where other records have the output slice, whose bytes are all that of byte 7. They are lent from a copy.
fn columns_case(rt: &impl Print, record: [u8; 160]) -> io::Result<()> {
    let listed = record;
    let mut output = [record[7]; 72];
    let m = order(&record);
    let columns_end = 80 + slice_length(record[4]);
    let output_end = slice_length(record[5]);
    columns_answer(
        rt,
        record[0],
        record[1],
        &listed[80..columns_end],
        m,
        input(&record),
        &mut output[..output_end],
    )
}

// Runs a case of no job at the current session and answers the one after it.
fn run_case(rt: &impl Print, session: Session, record: [u8; 160]) -> io::Result<Session> {
    match record[0] {
        b'o' | b's' | b'a' => return session_case(rt, session, record),
        b'+' | b'*' | b'i' => field_case(rt, record[0], record[1], record[5], record[6])?,
        b'm' => mend_case(rt, record)?,
        b'p' => replay_case(rt, record)?,
        b't' => turns_case(rt, record)?,
        b'E' => encode_at_case(rt, record)?,
        b'X' | b'U' | b'R' => columns_case(rt, record)?,
        _ => slice_case(rt, session, record)?,
    }
    Ok(session)
}

// A job of the input as a broken word, or one of the current session.
fn job_opening(session: Session, record: [u8; 160]) -> Opening {
    match record[0] {
        b'j' => job::open(record[1], series(&record), order(&record), input(&record)),
        _ => session.job(),
    }
}

fn opening_case(rt: &impl Print, session: Session, record: [u8; 160]) -> io::Result<Job> {
    let opening = job_opening(session, record);
    let next = opening.job;
    print_answer(rt, record[0], opening.outcome)?;
    print_parameters(rt, next.q, next.series, next.m)?;
    print_values(rt, &next.places, b'\n')?;
    Ok(next)
}

// What a call says of the job, with a space before and after it.
fn print_kind(rt: &impl Print, reply: job::Reply) -> io::Result<()> {
    match reply {
        job::Reply::Refused => rt.write_all(b" refused "),
        job::Reply::NoneFits | job::Reply::Leaves(_) => rt.write_all(b" working "),
        job::Reply::Finished(_) => rt.write_all(b" finished "),
    }
}

fn call_answer(rt: &impl Print, job: Job, budget: u8, message: &mut [u8]) -> io::Result<Job> {
    let turn = job.carry_on(budget, message);
    print_answer(rt, b'c', Outcome::from(turn.reply))?;
    rt.print(turn.brought)?;
    print_kind(rt, turn.reply)?;
    print_values(rt, message, b'\n')?;
    Ok(turn.job)
}

fn call_case(rt: &impl Print, job: Job, record: [u8; 160]) -> io::Result<Job> {
    let mut lent = record;
    let message_end = 80 + slice_length(record[4]);
    call_answer(rt, job, record[5], &mut lent[80..message_end])
}

// Work bytes of which only the diagonal is set.
fn diagonal_work(record: [u8; 160]) -> [u8; 4096] {
    let mut work = [0u8; 4096];
    for i in 0..64 {
        work[65 * i] = record[80 + i];
    }
    work
}

// Work bytes that are all set, from 72 bytes of the record in turn.
fn full_work(record: [u8; 160]) -> [u8; 4096] {
    array::from_fn(|i| record[80 + i % 72])
}

fn raw_work(record: [u8; 160]) -> [u8; 4096] {
    match record[7] {
        0 => [0u8; 4096],
        1 => diagonal_work(record),
        _ => full_work(record),
    }
}

// A job that no opening gave. Byte 6 is odd if a contradiction was met, and half of it is odd if the equations are complete.
fn raw_job(record: [u8; 160]) -> Job {
    let work = raw_work(record);
    let places = bytes_from(8, record);
    let message = bytes_from(80, record);
    Job {
        work,
        places,
        candidate: message,
        whole: message,
        q: record[1],
        series: series(&record),
        m: order(&record),
        next: u16::from_le_bytes([record[3], record[153]]),
        complete: record[6] / 2 % 2 == 1,
        clash: record[6] % 2 == 1,
    }
}

// Whether four calls, each on the job that the one before it handed back, write the slice only with a message.
fn keeps_slice(job: Job, record: [u8; 160]) -> bool {
    let message_end = 80 + slice_length(record[4]);
    let mut current = job;
    let mut lent = record;
    for _ in 0..4 {
        let before = lent;
        let turn = current.carry_on(record[5], &mut lent[80..message_end]);
        if !job::is_message(turn.reply) && lent != before {
            return false;
        }
        current = turn.job;
    }
    true
}

fn raw_job_case(rt: &impl Print, record: [u8; 160]) -> io::Result<()> {
    print_answer(rt, b'y', Ok(()))?;
    if keeps_slice(raw_job(record), record) {
        rt.write_all(b"kept\n")
    } else {
        rt.write_all(b"changed\n")
    }
}

fn is_of_job(op: u8) -> bool {
    matches!(op, b'j' | b'J' | b'c' | b'y')
}

// Runs a case of a job at the current session and job and answers the job after it.
fn run_job_case(rt: &impl Print, session: Session, job: Job, record: [u8; 160]) -> io::Result<Job> {
    match record[0] {
        b'j' | b'J' => opening_case(rt, session, record),
        b'c' => call_case(rt, job, record),
        _ => {
            raw_job_case(rt, record)?;
            Ok(job)
        }
    }
}

// The loop has a number of turns that no input reaches, since a proved loop has to end.
fn main(rt: HostRuntime) -> io::Result<()> {
    let refused = session::open(0, 1, 0);
    let refused_job = job::open(0, 1, 0, &[]);
    let mut session = refused.session;
    let mut job = refused_job.job;
    let mut from = rt.stdin();
    for _ in 0..u64::MAX {
        let Some(record) = read_record(&mut from)? else {
            break;
        };
        if is_of_job(record[0]) {
            job = run_job_case(&rt, session, job, record)?;
        } else {
            session = run_case(&rt, session, record)?;
        }
    }
    Ok(())
}
