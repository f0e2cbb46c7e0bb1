//! `cxx_space`: at which places it is asked which function a call means.

use cxx_declaring::Declaring;
use cxx_model::limits::MOST_BYTES;
use cxx_model::{Options, Place};
use cxx_overload::{Choosing, Recorder};
use cxx_space::read_unit;
use cxx_tokens::tokens;
use std::alloc::Global;

fn are_told(places: Option<&[Place]>, wanted: &[Place]) -> bool {
    match places {
        Some(places) => places == wanted,
        None => false,
    }
}

/// Whether it is asked at these places, in this order, while a unit is read.
fn asks_at(alloc: Global, text: &[u8], wanted: &[Place]) -> bool {
    if text.len() > MOST_BYTES as usize {
        return false;
    }
    let Ok(list) = tokens(alloc, text) else {
        return false;
    };
    let chooser = Choosing::Recorder(Recorder::new(alloc));
    match read_unit(
        alloc,
        &Declaring,
        text,
        &list,
        Options { depth: 0 },
        chooser,
    ) {
        Ok(state) => match state.into_chooser() {
            Some(chooser) => are_told(chooser.asked(), wanted),
            None => false,
        },
        Err(_) => false,
    }
}

static OVERLOADED: [Place; 1] = [Place {
    line: 1,
    column: 34,
}];

// What stands within a call is decided before it.
static NESTED: [Place; 3] = [
    Place {
        line: 2,
        column: 11,
    },
    Place { line: 2, column: 9 },
    Place {
        line: 2,
        column: 21,
    },
];

// A default argument is read where it is declared, and not again where it is used.
static DEFAULT: [Place; 3] = [
    Place {
        line: 2,
        column: 13,
    },
    Place { line: 3, column: 9 },
    Place {
        line: 3,
        column: 15,
    },
];

#[test]
fn call_is_asked(rt: HostRuntime) {
    assert!(rt;
        asks_at(
            rt.alloc(),
            b"int f(int); int f(char); int x = f('a');",
            &OVERLOADED
        )
    );
}

#[test]
fn each_call_is_asked(rt: HostRuntime) {
    assert!(rt;
        asks_at(
            rt.alloc(),
            b"int f(int); int g(char);\nint x = f(g('a')) + f(1);",
            &NESTED
        )
    );
}

#[test]
fn default_argument_is_asked_once(rt: HostRuntime) {
    assert!(rt;
        asks_at(
            rt.alloc(),
            b"int f(int);\nint g(int = f(1));\nint x = g() + g();",
            &DEFAULT
        )
    );
}
