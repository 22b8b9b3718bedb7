// Generated from tools/nodes/table.txt; edit that and run tools/nodes/generate.
// Fields of rows: loops, labels and jumps (ECMA-262, 14.7 to 14.10, 14.13, 14.14 and 14.16).

use crate::names::{FlatField, FlatSort};

pub static FOR_STATEMENT: [FlatField; 4] = [
    FlatField {
        name: "init",
        sort: FlatSort::Child,
    },
    FlatField {
        name: "test",
        sort: FlatSort::Child,
    },
    FlatField {
        name: "update",
        sort: FlatSort::Child,
    },
    FlatField {
        name: "body",
        sort: FlatSort::Child,
    },
];

pub static FOR_IN_STATEMENT: [FlatField; 3] = [
    FlatField {
        name: "left",
        sort: FlatSort::Child,
    },
    FlatField {
        name: "right",
        sort: FlatSort::Child,
    },
    FlatField {
        name: "body",
        sort: FlatSort::Child,
    },
];

pub static FOR_OF_STATEMENT: [FlatField; 4] = [
    FlatField {
        name: "is_await",
        sort: FlatSort::Flag,
    },
    FlatField {
        name: "left",
        sort: FlatSort::Child,
    },
    FlatField {
        name: "right",
        sort: FlatSort::Child,
    },
    FlatField {
        name: "body",
        sort: FlatSort::Child,
    },
];

pub static WHILE_STATEMENT: [FlatField; 2] = [
    FlatField {
        name: "test",
        sort: FlatSort::Child,
    },
    FlatField {
        name: "body",
        sort: FlatSort::Child,
    },
];

pub static DO_WHILE_STATEMENT: [FlatField; 2] = [
    FlatField {
        name: "body",
        sort: FlatSort::Child,
    },
    FlatField {
        name: "test",
        sort: FlatSort::Child,
    },
];

pub static LABEL_IDENTIFIER: [FlatField; 1] = [FlatField {
    name: "name",
    sort: FlatSort::Text,
}];

pub static LABELED_STATEMENT: [FlatField; 2] = [
    FlatField {
        name: "label",
        sort: FlatSort::Child,
    },
    FlatField {
        name: "body",
        sort: FlatSort::Child,
    },
];

pub static CONTINUE_STATEMENT: [FlatField; 1] = [FlatField {
    name: "label",
    sort: FlatSort::Child,
}];

pub static BREAK_STATEMENT: [FlatField; 1] = [FlatField {
    name: "label",
    sort: FlatSort::Child,
}];

pub static RETURN_STATEMENT: [FlatField; 1] = [FlatField {
    name: "argument",
    sort: FlatSort::Child,
}];

pub static THROW_STATEMENT: [FlatField; 1] = [FlatField {
    name: "argument",
    sort: FlatSort::Child,
}];
