//! The program `gauge`: it does one thing to well-known texts, as often as it is asked to, so that the measures in bench/ can
//! time it and compare it with others. Without words it writes the canonical text of a geometry.
#![tactic(auto)]

ghost use Rattle.std.specs.Prelude.{OnOk};
ghost use Rattle.gauge.specs.Reprinting.{Reprints};

use de9im::{Matrix, Work, matrix_of_labels, relate};
use fraction::{GridPoint, RatPoint};
use geometry_model::Location;
use side_labels::{labels, locate};
use std::alloc::{AllocError, Global};
use std::env;
use std::io::{BufWriter, ErrorKind, Read};
use std::process::ExitCode;
use std::str::Lines;
use validity::{CheckFault, Valid, check};
use wkt::{Sink, StdSink, WktFault, print, put_all, read};

/// The most bytes that texts may have here: a part of a longer text could spell something else, so none of it is read.
const TEXT_BYTES: u64 = 1 << 24;

/// Why a measure ends without a result; each reason has its status.
#[derive(Clone, Copy)]
enum Failure {
    /// The words of the command line aren't those of a measure.
    Misuse,
    /// A text spells no geometry, or one in which points can't be located.
    NoGeometry,
    /// Reading or writing failed, or the texts are too long.
    Failed,
    /// Memory ran out.
    OutOfMemory,
}

impl From<AllocError> for Failure {
    fn from(_error: AllocError) -> Failure {
        Failure::OutOfMemory
    }
}

impl From<WktFault> for Failure {
    fn from(fault: WktFault) -> Failure {
        match fault {
            WktFault::OutOfMemory => Failure::OutOfMemory,
            _ => Failure::NoGeometry,
        }
    }
}

impl From<CheckFault> for Failure {
    fn from(fault: CheckFault) -> Failure {
        match fault {
            CheckFault::OutOfMemory => Failure::OutOfMemory,
            _ => Failure::NoGeometry,
        }
    }
}

impl Failure {
    fn status(self) -> u8 {
        match self {
            Failure::Misuse => 2,
            Failure::NoGeometry => 5,
            Failure::Failed => 6,
            Failure::OutOfMemory => 7,
        }
    }
}

fn main(rt: HostRuntime) -> ExitCode {
    match gauge(&rt) {
        Ok(()) => ExitCode::SUCCESS,
        Err(failure) => ExitCode::from(failure.status()),
    }
}

/// Does to the text on standard input what the words of the command line say, and writes the result.
fn gauge(rt: &HostRuntime) -> Result<(), Failure> {
    let words = words_of(rt)?;
    let text = read_input(rt)?;
    let buffer = BufWriter::new(rt.alloc(), rt.stdout()).map_err(|_| Failure::OutOfMemory)?;
    let mut out = StdSink::new(buffer);
    put_answer(rt.alloc(), words.as_slice(), text.as_str(), &mut out)?;
    put(b"\n", &mut out)?;
    out.flush().map_err(|_| Failure::Failed)
}

/// The words of the command line.
fn words_of(rt: &HostRuntime) -> Result<Vec<String>, Failure> {
    let mut words = Vec::new(rt.alloc());
    for word in env::args(rt).map_err(|_| Failure::Misuse)? {
        words.push(word).map_err(AllocError::from)?;
    }
    Ok(words)
}

/// What is on standard input.
fn read_input(rt: &HostRuntime) -> Result<String, Failure> {
    let mut text = String::new(rt.alloc());
    match rt.stdin().take(TEXT_BYTES + 1).read_to_string(&mut text) {
        Ok(_) if text.len() as u64 <= TEXT_BYTES => Ok(text),
        Err(error) if error.kind() == ErrorKind::OutOfMemory => Err(Failure::OutOfMemory),
        _ => Err(Failure::Failed),
    }
}

/// Does to a text what the words of the command line say, and writes the result.
fn put_answer<S: Sink>(
    alloc: Global,
    words: &[String],
    text: &str,
    sink: &mut S,
) -> Result<(), Failure> {
    match words {
        [_] => put_again(alloc, text.as_bytes(), sink),
        [_, word] if word.as_str() == "pairs" => put_pairs(alloc, text, sink),
        [_, word, times] => {
            let times = times.parse::<u32>().map_err(|_| Failure::Misuse)?;
            put_measured(alloc, word.as_str(), times, text, sink)
        }
        _ => Err(Failure::Misuse),
    }
}

/// Writes some bytes.
fn put<S: Sink>(bytes: &[u8], sink: &mut S) -> Result<(), Failure> {
    put_all(sink, bytes).map_err(|_| Failure::Failed)
}

/// Writes the canonical text of the geometry that a text spells.
fn put_again<S: Sink>(alloc: Global, text: &[u8], sink: &mut S) -> Result<(), Failure>
    ensures { OnOk result (Reprints text.now (S.taken sink.old) (S.taken sink.new)) }
{
    let geometry = read(alloc, text)?;
    print(&geometry, sink).map_err(|_| Failure::Failed)
}

/// Writes a number's digits.
fn put_number<S: Sink>(number: usize, sink: &mut S) -> Result<(), Failure> {
    let mut buffer = itoa::Buffer::new();
    put(buffer.format(number).as_bytes(), sink)
}

/// Does one thing this often, and writes its result: for `relate` the matrix of the geometries in the first two lines, else
/// a number.
fn put_measured<S: Sink>(
    alloc: Global,
    word: &str,
    times: u32,
    text: &str,
    sink: &mut S,
) -> Result<(), Failure> {
    if word == "relate" {
        let matrix = related(alloc, times, text)?;
        return put(&matrix.text(), sink);
    }
    put_number(measured(alloc, word, times, text)?, sink)
}

/// Relates the geometries in the first two lines this often, and once more at first.
fn related(alloc: Global, times: u32, text: &str) -> Result<Matrix, Failure> {
    let mut lines = text.lines();
    let first = checked(alloc, lines.next())?;
    let second = checked(alloc, lines.next())?;
    Ok(relate_often(alloc, &first, &second, times)?)
}

/// Relates two geometries this often, and once more at first.
fn relate_often(
    alloc: Global,
    first: &Valid,
    second: &Valid,
    times: u32,
) -> Result<Matrix, AllocError> {
    let mut work = Work::new();
    let mut matrix = relate(alloc, first, second, &mut work)?;
    for _ in 0..times {
        matrix = relate(alloc, first, second, &mut work)?;
    }
    Ok(matrix)
}

/// The valid geometry that a line spells; a line that is missing counts as an empty one.
fn checked(alloc: Global, line: Option<&str>) -> Result<Valid, Failure> {
    let geometry = read(alloc, line.unwrap_or("").as_bytes())?;
    Ok(check(alloc, geometry)?)
}

/// Relates the geometries of each pair of lines.
fn put_pairs<S: Sink>(alloc: Global, text: &str, sink: &mut S) -> Result<(), Failure> {
    let mut lines = text.lines();
    while let Some(first) = lines.next() {
        put_pair(alloc, first, lines.next().unwrap_or(""), sink)?;
    }
    Ok(())
}

/// Relates the geometries that two texts spell.
fn put_pair<S: Sink>(
    alloc: Global,
    first: &str,
    second: &str,
    sink: &mut S,
) -> Result<(), Failure> {
    let first = valid(alloc, first)?;
    let second = valid(alloc, second)?;
    match (&first, &second) {
        (Some(first), Some(second)) => put_both(alloc, first, second, sink),
        _ => put(b"invalid\n", sink),
    }
}

/// The valid geometry that a text spells; None if it has a fault of validity.
fn valid(alloc: Global, text: &str) -> Result<Option<Valid>, Failure> {
    match check(alloc, read(alloc, text.as_bytes())?) {
        Ok(valid) => Ok(Some(valid)),
        Err(CheckFault::OutOfMemory) => Err(Failure::OutOfMemory),
        Err(_) => Ok(None),
    }
}

/// Writes the matrix that is found by edges, and the one that labels show.
fn put_both<S: Sink>(
    alloc: Global,
    first: &Valid,
    second: &Valid,
    sink: &mut S,
) -> Result<(), Failure> {
    let by_edges = relate_often(alloc, first, second, 0)?;
    let by_labels = matrix_of_labels(&labels(alloc, first, second)?);
    put(&by_edges.text(), sink)?;
    put(b" ", sink)?;
    put(&by_labels.text(), sink)?;
    put(b"\n", sink)
}

/// Does one thing this often, and returns its number: for `read` that of its lines or rings, for `check` 1 if the geometry is
/// valid, for `locate` that of the points in the further lines that aren't in its exterior.
fn measured(alloc: Global, word: &str, times: u32, text: &str) -> Result<usize, Failure> {
    match word {
        "read" => read_often(alloc, first_line(text), times),
        "check" => check_often(alloc, first_line(text), times),
        "locate" => located(alloc, text, times),
        _ => Err(Failure::Misuse),
    }
}

/// The first line of a text.
fn first_line(text: &str) -> &[u8] {
    text.lines().next().unwrap_or("").as_bytes()
}

/// Locates the points in the further lines in the geometry of the first, this often.
fn located(alloc: Global, text: &str, times: u32) -> Result<usize, Failure> {
    let mut lines = text.lines();
    let valid = checked(alloc, lines.next())?;
    let points = points_in(alloc, lines)?;
    Ok(locate_often(&valid, points.as_slice(), times))
}

/// The points that lines spell.
fn points_in(alloc: Global, lines: Lines<'_>) -> Result<Vec<RatPoint>, Failure> {
    let mut points = Vec::new(alloc);
    for line in lines {
        points
            .push(point(alloc, line.as_bytes())?)
            .map_err(AllocError::from)?;
    }
    Ok(points)
}

/// Reads a text this often; returns how many lines or rings it has.
fn read_often(alloc: Global, text: &[u8], times: u32) -> Result<usize, Failure> {
    let mut lines = 0;
    for _ in 0..times {
        lines = read(alloc, text)?.lines().len();
    }
    Ok(lines)
}

/// Reads and tests a text this often; returns 1 if the geometry is valid, and else 0.
fn check_often(alloc: Global, text: &[u8], times: u32) -> Result<usize, Failure> {
    let mut answer = 0;
    for _ in 0..times {
        answer = match check(alloc, read(alloc, text)?) {
            Ok(_) => 1,
            Err(CheckFault::OutOfMemory) => return Err(Failure::OutOfMemory),
            Err(_) => 0,
        };
    }
    Ok(answer)
}

/// The point that a text spells.
fn point(alloc: Global, text: &[u8]) -> Result<RatPoint, Failure> {
    let geometry = read(alloc, text)?;
    let position: &GridPoint = geometry.listed().first().ok_or(Failure::NoGeometry)?;
    Ok(RatPoint::of_grid(*position))
}

/// Locates each of some points this often; returns how many aren't in the exterior.
fn locate_often(valid: &Valid, points: &[RatPoint], times: u32) -> usize {
    let mut inside = 0;
    for _ in 0..times {
        inside = points
            .iter()
            .filter(|point| locate(valid, point) != Location::Exterior)
            .count();
    }
    inside
}
