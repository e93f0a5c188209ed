// A sample night: panels from files, telemetry times coefficients into scores, a late correction added onto them, a file and a correction
// that are refused, and who is flashed at six. The files of data/, read where the program runs, were written by Python's struct.pack, as
// pack("<3sHBHH12d", b"IVP", 1, 2, 4, 3, ..). damaged.ivp has other readings than telemetry.ivp, and lacks its last byte.
#![tactic(auto)]

ghost use Rattle.std.specs.Prelude.{◌≤◌};

use element::kind::Kind;
use gemm::gemm::gemm;
use layout::need::pack_length;
use layout::operand::Operand;
use panel::file::Shape;
use panel::reader::read;
use refusal::Refusal;
use show::{Hundredths, Refused};
use std::fs::File;
use std::io;
use std::io::Read;
use std::rt::Files;

const INVERTERS: usize = 4;

const READINGS: usize = 3;

const SCORES: usize = 2;

// The shapes that the night's files are to have.
const TELEMETRY: Shape = Shape {
    rows: 4,
    columns: 3,
};

const COEFFICIENTS: Shape = Shape {
    rows: 3,
    columns: 2,
};

// The pack buffer, longer than the need of every call here.
const PACK: usize = 64;

type Telemetry = [f64; 12];

type Coefficients = [f64; 6];

type Scores = [f64; 8];

// Row by row, from an element on.
fn rows_of(columns: usize, base: usize) -> Operand
    requires { columns ≤ 8 }
{
    Operand {
        base,
        rs: columns as isize,
        cs: 1,
    }
}

// Adds readings times coefficients onto beta times the scores, whose first row lies at base.
fn scored(
    readings: &Telemetry,
    coefficients: &Coefficients,
    beta: f64,
    scores: &mut Scores,
    base: usize,
) -> Result<(), Refusal> {
    let mut pack = [0.0f64; PACK];
    gemm(
        INVERTERS,
        READINGS,
        SCORES,
        1.0,
        readings,
        rows_of(READINGS, 0),
        coefficients,
        rows_of(SCORES, 0),
        beta,
        scores,
        rows_of(SCORES, base),
        &mut pack,
    )
}

fn show_scores(rt: &impl Print, scores: &Scores) -> io::Result<()> {
    for (i, row) in scores.chunks_exact(SCORES).enumerate() {
        let ready = Hundredths(row[0]);
        let strain = Hundredths(row[1]);
        println!(rt; "  inverter {}   ready {ready}   strain {strain}", i + 1)?;
    }
    Ok(())
}

fn show_answer(rt: &impl Print, r: Result<(), Refusal>) -> io::Result<()> {
    match r {
        Ok(()) => println!(rt; "  done"),
        Err(x) => println!(rt; "  {}", Refused(x)),
    }
}

fn show_need(rt: &impl Print) -> io::Result<()> {
    match pack_length(Kind::F64, INVERTERS, READINGS, SCORES) {
        Err(x) => println!(rt; "{}\n", Refused(x)),
        Ok(x) => println!(rt; "the pack buffer needs {x} elements\n"),
    }
}

// The rule of six o'clock: no comparison with a gap holds.
fn show_picks(rt: &impl Print, scores: &Scores) -> io::Result<()> {
    for (i, row) in scores.chunks_exact(SCORES).enumerate() {
        let pick = if row[0] > 100.0 {
            "is flashed"
        } else {
            "waits"
        };
        println!(rt; "  inverter {} {pick}", i + 1)?;
    }
    Ok(())
}

// Reads a file's bytes into numbers, and answers the shape of what these then hold: the file's, or the old one where nothing was stored.
fn take(rt: &impl Print, bytes: &[u8], numbers: &mut [f64], old: Shape) -> io::Result<Shape> {
    match read(bytes, numbers) {
        Ok(h) => {
            let shape = h.shape;
            println!(rt; "{} rows, {} columns", shape.rows, shape.columns)?;
            Ok(shape)
        }
        Err(x) => {
            println!(rt; "{}\n  nothing was stored", Refused(x))?;
            Ok(old)
        }
    }
}

// The same of an open file. There is no heap: its bytes stand in an array, whose first ones they are.
fn take_file(
    rt: &impl Print,
    file: &mut impl Read,
    numbers: &mut [f64],
    old: Shape,
) -> io::Result<Shape> {
    let mut bytes = [0u8; 4096];
    let got = show::read_full(file, &mut bytes)?;
    if got == bytes.len() {
        println!(rt; "the file is too long")?;
        return Ok(old);
    }
    take(rt, &bytes[..got], numbers, old)
}

// The same of a file by its name.
fn take_named(
    rt: &(impl Files + Print),
    path: &str,
    numbers: &mut [f64],
    old: Shape,
) -> io::Result<Shape> {
    print!(rt; "  {path}: ")?;
    match File::open(rt, path) {
        Ok(mut file) => take_file(rt, &mut file, numbers, old),
        Err(_) => {
            println!(rt; "the file cannot be opened")?;
            Ok(old)
        }
    }
}

// Have telemetry, coefficients and correction the night's shapes?
fn are_shapes(telemetry: Shape, coefficients: Shape, correction: Shape) -> bool {
    telemetry == TELEMETRY && coefficients == COEFFICIENTS && correction == TELEMETRY
}

// Scores, corrects and picks.
fn night(
    rt: &impl Print,
    readings: &Telemetry,
    coefficients: &Coefficients,
    correction: &Telemetry,
) -> io::Result<()> {
    let mut scores = [0.0f64; 8];
    println!(rt; "\ntelemetry times coefficients (a reading of inverter 3 is a gap)")?;
    show_answer(rt, scored(readings, coefficients, 0.0, &mut scores, 0))?;
    show_scores(rt, &scores)?;
    println!(rt; "\na late correction for inverter 2, multiplied and added")?;
    show_answer(rt, scored(correction, coefficients, 1.0, &mut scores, 0))?;
    show_scores(rt, &scores)?;
    println!(rt; "\nthe same correction, laid over the wrong base: one element too far")?;
    show_answer(rt, scored(correction, coefficients, 1.0, &mut scores, 1))?;
    println!(rt; "  nothing was stored:")?;
    show_scores(rt, &scores)?;
    println!(rt;
        "\nSix o'clock: an inverter is flashed where its ready score is above 100; a gap is not"
    )?;
    show_picks(rt, &scores)
}

fn main(rt: HostRuntime) -> io::Result<()> {
    let mut readings = [0.0f64; 12];
    let mut coefficients = [0.0f64; 6];
    let mut correction = [0.0f64; 12];
    let none = Shape {
        rows: 0,
        columns: 0,
    };
    print!(rt; "Five o'clock: {INVERTERS} inverters, {READINGS} readings each, {SCORES} scores; ")?;
    show_need(&rt)?;
    println!(rt; "panels from files")?;
    let first = take_named(&rt, "telemetry.ivp", &mut readings, none)?;
    let known = take_named(&rt, "coefficients.ivp", &mut coefficients, none)?;
    let late = take_named(&rt, "late.ivp", &mut correction, none)?;
    println!(rt; "\ntelemetry sent once more, but cut short on its way")?;
    let telemetry = take_named(&rt, "damaged.ivp", &mut readings, first)?;
    if are_shapes(telemetry, known, late) {
        return night(&rt, &readings, &coefficients, &correction);
    }
    println!(rt;
        "\nno scores: telemetry and late are to have 4 rows, 3 columns, coefficients 3 rows, 2 columns;"
    )?;
    println!(rt; "the night's files are in crates/night/data, where ./run runs it")
}
