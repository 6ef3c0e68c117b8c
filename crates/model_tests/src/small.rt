//! Small jobs, and what holds of jobs. They are tables, since each function that makes an array of nodes is proved.
use crate::making::Made;
use mk_jobs::maker::Maker;

/// Whether something was made, and this holds of it. It is generic, so that only here a large value is owned.
pub(crate) fn hold<T: Drop, F: FnOnce(&T) -> bool>(made: Option<T>, holds: F) -> bool
    requires { F.IsAlwaysCallable holds }
{
    match made {
        Some(value) => holds(&value),
        None => false,
    }
}

/// A file that is listed.
pub(crate) const FILE: Made<'static> = Made {
    name: "",
    needs: &[],
    maker: Maker::Nothing,
    listed: true,
    reads: &[],
    writes: &[],
};

/// A target without commands.
pub(crate) const PLAIN: Made<'static> = Made {
    listed: false,
    ..FILE
};

/// A target with commands, which is not listed.
pub(crate) const RULED: Made<'static> = Made {
    maker: Maker::Rule,
    ..PLAIN
};

/// A target with commands that is listed and needs nothing, so that its commands can never run.
const IDLE: Made<'static> = Made {
    listed: true,
    ..RULED
};

/// Two objects and a link.
pub(crate) static TWO_OBJECTS: [Made<'static>; 5] = [
    Made {
        name: "a.c",
        ..FILE
    },
    Made {
        name: "a.o",
        needs: &[0],
        reads: &["a.c"],
        writes: &["a.o"],
        ..RULED
    },
    Made {
        name: "b.c",
        ..FILE
    },
    Made {
        name: "b.o",
        needs: &[2],
        reads: &["b.c"],
        writes: &["b.o"],
        ..RULED
    },
    Made {
        name: "prog",
        needs: &[1, 3],
        reads: &["a.o", "b.o"],
        writes: &["prog"],
        ..RULED
    },
];

/// An object that reads a header, and does not need it.
pub(crate) static MISSING_HEADER: [Made<'static>; 5] = [
    Made {
        name: "gen.sh",
        ..FILE
    },
    Made {
        name: "gen.h",
        needs: &[0],
        reads: &["gen.sh"],
        writes: &["gen.h"],
        ..RULED
    },
    Made {
        name: "a.c",
        ..FILE
    },
    Made {
        name: "a.o",
        needs: &[2],
        reads: &["a.c", "gen.h"],
        writes: &["a.o"],
        ..RULED
    },
    Made {
        name: "all",
        needs: &[1, 3],
        ..PLAIN
    },
];

/// The same, where it needs the header.
pub(crate) static HEADER_NEEDED: [Made<'static>; 5] = [
    Made {
        name: "gen.sh",
        ..FILE
    },
    Made {
        name: "gen.h",
        needs: &[0],
        reads: &["gen.sh"],
        writes: &["gen.h"],
        ..RULED
    },
    Made {
        name: "a.c",
        ..FILE
    },
    Made {
        name: "a.o",
        needs: &[2, 1],
        reads: &["a.c", "gen.h"],
        writes: &["a.o"],
        ..RULED
    },
    Made {
        name: "all",
        needs: &[1, 3],
        ..PLAIN
    },
];

/// Three recipes that write one file, none behind another.
pub(crate) static THREE_WRITERS: [Made<'static>; 4] = [
    Made {
        name: "x",
        writes: &["t", "x"],
        ..RULED
    },
    Made {
        name: "y",
        writes: &["t", "y"],
        ..RULED
    },
    Made {
        name: "z",
        writes: &["t", "z"],
        ..RULED
    },
    Made {
        name: "all",
        needs: &[0, 1, 2],
        ..PLAIN
    },
];

/// Two recipes that write one file, where a target without commands puts them in order.
pub(crate) static TEMPORARY_ORDERED: [Made<'static>; 6] = [
    Made {
        name: "p.y",
        ..FILE
    },
    Made {
        name: "p.c",
        needs: &[0],
        reads: &["p.y"],
        writes: &["p.c", "y.tab.c"],
        ..RULED
    },
    Made {
        name: "q.y",
        ..FILE
    },
    Made {
        name: "first",
        needs: &[1],
        ..PLAIN
    },
    Made {
        name: "q.c",
        needs: &[2, 3],
        reads: &["q.y"],
        writes: &["q.c", "y.tab.c"],
        ..RULED
    },
    Made {
        name: "all",
        needs: &[1, 4],
        ..PLAIN
    },
];

/// Two recipes that write one file, of which the first needs nothing and is not listed.
pub(crate) static LIVE_CONFIGURE: [Made<'static>; 4] = [
    Made {
        name: "conf.h",
        writes: &["conf.h", "config.log"],
        ..RULED
    },
    Made {
        name: "a.c",
        ..FILE
    },
    Made {
        name: "a.o",
        needs: &[1],
        reads: &["a.c"],
        writes: &["a.o", "config.log"],
        ..RULED
    },
    Made {
        name: "all",
        needs: &[0, 2],
        ..PLAIN
    },
];

/// The same, where the first is listed, so that its recipe never runs.
pub(crate) static IDLE_CONFIGURE: [Made<'static>; 4] = [
    Made {
        name: "conf.h",
        ..IDLE
    },
    Made {
        name: "a.c",
        ..FILE
    },
    Made {
        name: "a.o",
        needs: &[1],
        reads: &["a.c"],
        writes: &["a.o", "config.log"],
        ..RULED
    },
    Made {
        name: "all",
        needs: &[0, 2],
        ..PLAIN
    },
];

/// A race behind a recipe that must run, one that never runs, and one that has no part in it.
pub(crate) static BEHIND_RECIPES: [Made<'static>; 7] = [
    Made {
        name: "q",
        writes: &["q"],
        ..RULED
    },
    Made { name: "s", ..FILE },
    Made {
        name: "m",
        needs: &[1],
        reads: &["s"],
        writes: &["m"],
        ..RULED
    },
    Made {
        name: "x",
        needs: &[2],
        reads: &["m"],
        writes: &["t", "x"],
        ..RULED
    },
    Made { name: "l", ..IDLE },
    Made {
        name: "y",
        needs: &[2, 4],
        reads: &["m", "t"],
        writes: &["y"],
        ..RULED
    },
    Made {
        name: "all",
        needs: &[0, 2, 3, 5],
        ..PLAIN
    },
];

/// A recipe that writes a tree, and one that reads a file in it.
pub(crate) static FILE_IN_TREE: [Made<'static>; 4] = [
    Made { name: "s", ..FILE },
    Made {
        name: "x",
        needs: &[0],
        reads: &["s"],
        writes: &["out/", "x"],
        ..RULED
    },
    Made {
        name: "y",
        needs: &[0],
        reads: &["out/log", "s"],
        writes: &["y"],
        ..RULED
    },
    Made {
        name: "all",
        needs: &[1, 2],
        ..PLAIN
    },
];

/// Recipes in a line that write one file.
pub(crate) static LOG_IN_LINE: [Made<'static>; 5] = [
    Made { name: "s", ..FILE },
    Made {
        name: "x",
        needs: &[0],
        reads: &["s"],
        writes: &["log", "x"],
        ..RULED
    },
    Made {
        name: "y",
        needs: &[1],
        writes: &["log", "y"],
        ..RULED
    },
    Made {
        name: "z",
        needs: &[2],
        writes: &["log", "z"],
        ..RULED
    },
    Made {
        name: "all",
        needs: &[1, 2, 3],
        ..PLAIN
    },
];
