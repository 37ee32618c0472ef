//! Typed designs from texts.

use crate::texts::{type_word, words};
use pairs::both;
use std::alloc::{AllocError, Global};
use sv_source::{Items, Place, Spot, Text};
use sv_types::{
    Design, EdgeOn, Expr, Function, FunctionKind, Functions, Instance, InstancePorts, Process,
    ProcessKind, Signal, SignalKind, Stmt, SvType, Value, Values,
};
use tree_words::{Word, expression, functions, statement};

/// A design as text.
#[derive(Clone, Copy, Drop)]
pub struct Case {
    /// The signals, with commas between: the number of the instance where that isn't the top, a mark for the kind, a colon, and
    /// the type. The mark is `i` or `j` for an input, `o` or `p` for an output, the second as a variable, `n` for a net, `v` for
    /// a variable and `d` for one with a declared value.
    pub signals: &'static str,
    /// The functions; behind `task`, a task.
    pub functions: &'static str,
    /// The processes, with semicolons between: the kind, behind the number of the instance and a colon where that isn't the top,
    /// and the statement.
    pub processes: &'static str,
}

// What a list of a design holds.
trait Part {
    type Value: Drop;

    // One by its text, with a token; `s` with a number is one of these signals.
    fn read(
        alloc: Global,
        signals: &'static str,
        text: &'static str,
        at: u32,
    ) -> Result<Self::Value, AllocError>;
}

// All of a text, with marks between; the first has this token.
fn each<P: Part>(
    alloc: Global,
    signals: &'static str,
    text: &'static str,
    mark: char,
    first: u32,
) -> Result<Items<P::Value>, AllocError> {
    let mut all = Items::new(alloc);
    let mut at = first;
    for one in text.split(mark) {
        if !one.is_empty() {
            all.push(P::read(alloc, signals, one, at)?)?;
        }
        at = at.saturating_add(1);
    }
    Ok(all)
}

fn spot(alloc: Global, at: u32) -> Spot {
    Spot {
        at,
        place: Place {
            file: 0,
            line: 0,
            col: 0,
        },
        word: Text::new(alloc),
    }
}

struct ReadInstance;

impl Part for ReadInstance {
    type Value = Instance;

    fn read(
        alloc: Global,
        _signals: &'static str,
        text: &'static str,
        _at: u32,
    ) -> Result<Instance, AllocError> {
        Ok(Instance {
            parent: 1,
            name: Text::new(alloc),
            module: Text::new(alloc),
            binding: 0,
            interface: text == "interface",
            ports: InstancePorts::new(alloc),
        })
    }
}

fn into_type(e: Expr) -> SvType {
    e.of
}

fn type_of(alloc: Global, text: &'static str) -> Result<SvType, AllocError> {
    let mut words = Vec::new(alloc);
    words.push(type_word(text))?;
    words.push(Word::Signal(0))?;
    let name = expression(alloc, words.as_slice())?;
    Ok(into_type(name))
}

fn kind_of(mark: &str) -> SignalKind {
    match mark {
        "i" => SignalKind::InputNet,
        "j" => SignalKind::InputVar,
        "o" => SignalKind::OutputNet,
        "p" => SignalKind::OutputVar,
        "n" => SignalKind::Net,
        _ => SignalKind::Variable,
    }
}

struct ReadSignal;

// A signal without what it holds at first, of which no rule speaks.
impl Part for ReadSignal {
    type Value = Signal;

    fn read(
        alloc: Global,
        _signals: &'static str,
        text: &'static str,
        at: u32,
    ) -> Result<Signal, AllocError> {
        let (mark, of) = text.split_once(':').unwrap_or((text, "1"));
        let instance = mark.trim_end_matches(char::is_alphabetic);
        let kind = mark.trim_start_matches(char::is_numeric);
        let of = type_of(alloc, of)?;
        Ok(Signal {
            instance: instance.parse().unwrap_or(1),
            path: Text::new(alloc),
            of,
            kind: kind_of(kind),
            initial: Value::Items(Values::new(alloc)),
            declared: kind == "d",
            spot: spot(alloc, at),
        })
    }
}

struct ReadEdge;

// `+` or `-` and the number of a signal.
impl Part for ReadEdge {
    type Value = EdgeOn;

    fn read(
        alloc: Global,
        _signals: &'static str,
        text: &'static str,
        at: u32,
    ) -> Result<EdgeOn, AllocError> {
        Ok(EdgeOn {
            signal: text.get(1..).unwrap_or("").parse().unwrap_or(0),
            rising: text.starts_with('+'),
            spot: spot(alloc, at),
        })
    }
}

fn process_kind(alloc: Global, text: &'static str) -> Result<ProcessKind, AllocError> {
    Ok(match text {
        "assign" => ProcessKind::Continuous,
        "comb" => ProcessKind::Comb,
        "latch" => ProcessKind::Latch,
        "star" => ProcessKind::Star,
        _ => match text.strip_prefix("port") {
            Some(port) => ProcessKind::Link(port.parse().unwrap_or(0)),
            None => ProcessKind::Edges(each::<ReadEdge>(alloc, "", text, '/', 801)?),
        },
    })
}

fn body(alloc: Global, signals: &'static str, text: &'static str) -> Result<Stmt, AllocError> {
    let words = words(alloc, signals, text)?;
    statement(alloc, words.as_slice())
}

struct ReadProcess;

impl Part for ReadProcess {
    type Value = Process;

    fn read(
        alloc: Global,
        signals: &'static str,
        text: &'static str,
        at: u32,
    ) -> Result<Process, AllocError> {
        let (head, rest) = text.split_once(' ').unwrap_or((text, ""));
        let (instance, kind) = head.split_once(':').unwrap_or(("1", head));
        let (kind, body) = both(process_kind(alloc, kind), body(alloc, signals, rest))?;
        Ok(Process {
            instance: instance.parse().unwrap_or(1),
            kind,
            body,
            spot: spot(alloc, at),
        })
    }
}

fn as_task(f: Function) -> Function {
    let mut f = f;
    f.kind = FunctionKind::Routine;
    f
}

// The same functions, the last one as a task.
fn with_task(made: Functions) -> Result<Functions, AllocError> {
    let mut made = made;
    if let Some(last) = made.pop() {
        made.push(as_task(last))?;
    }
    Ok(made)
}

fn routines(alloc: Global, text: &'static str) -> Result<Functions, AllocError> {
    let (is_task, rest) = match text.strip_prefix("task ") {
        Some(rest) => (true, rest),
        None => (false, text),
    };
    let words = words(alloc, "", rest)?;
    let made = functions(alloc, words.as_slice())?;
    if is_task { with_task(made) } else { Ok(made) }
}

/// The design of a case: the top, a module in it and an interface, with these signals, processes and functions.
pub fn design(alloc: Global, case: &Case) -> Result<Design, AllocError> {
    let signals = case.signals;
    let instances = each::<ReadInstance>(alloc, "", "module,module,interface", ',', 0);
    let front = both(instances, each::<ReadSignal>(alloc, "", signals, ',', 901));
    let processes = each::<ReadProcess>(alloc, signals, case.processes, ';', 701);
    let back = both(processes, routines(alloc, case.functions));
    let ((instances, signals), (processes, functions)) = both(front, back)?;
    Ok(Design {
        instances,
        signals,
        processes,
        functions,
    })
}
