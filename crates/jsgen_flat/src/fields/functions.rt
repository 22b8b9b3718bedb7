// Generated from tools/nodes/table.txt; edit that and run tools/nodes/generate.
// Fields of rows: functions and their parameters (ECMA-262, clause 15).

use crate::names::{FlatField, FlatSort};

pub static FORMAL_PARAMETER: [FlatField; 8] = [
    FlatField {
        name: "decorators",
        sort: FlatSort::Unread,
    },
    FlatField {
        name: "accessibility",
        sort: FlatSort::Unread,
    },
    FlatField {
        name: "is_override",
        sort: FlatSort::Unread,
    },
    FlatField {
        name: "readonly",
        sort: FlatSort::Unread,
    },
    FlatField {
        name: "pattern",
        sort: FlatSort::Child,
    },
    FlatField {
        name: "optional",
        sort: FlatSort::Unread,
    },
    FlatField {
        name: "type_annotation",
        sort: FlatSort::Unread,
    },
    FlatField {
        name: "initializer",
        sort: FlatSort::Child,
    },
];

pub static FORMAL_PARAMETER_REST: [FlatField; 3] = [
    FlatField {
        name: "decorators",
        sort: FlatSort::Unread,
    },
    FlatField {
        name: "argument",
        sort: FlatSort::Child,
    },
    FlatField {
        name: "type_annotation",
        sort: FlatSort::Unread,
    },
];

pub static FORMAL_PARAMETERS: [FlatField; 2] = [
    FlatField {
        name: "items",
        sort: FlatSort::List,
    },
    FlatField {
        name: "rest",
        sort: FlatSort::Child,
    },
];

pub static FUNCTION: [FlatField; 12] = [
    FlatField {
        name: "kind",
        sort: FlatSort::Word(&["declaration", "expression"]),
    },
    FlatField {
        name: "id",
        sort: FlatSort::Child,
    },
    FlatField {
        name: "is_async",
        sort: FlatSort::Flag,
    },
    FlatField {
        name: "generator",
        sort: FlatSort::Flag,
    },
    FlatField {
        name: "declare",
        sort: FlatSort::Unread,
    },
    FlatField {
        name: "pure",
        sort: FlatSort::Flag,
    },
    FlatField {
        name: "pife",
        sort: FlatSort::Flag,
    },
    FlatField {
        name: "type_parameters",
        sort: FlatSort::Unread,
    },
    FlatField {
        name: "this_param",
        sort: FlatSort::Unread,
    },
    FlatField {
        name: "params",
        sort: FlatSort::Child,
    },
    FlatField {
        name: "return_type",
        sort: FlatSort::Unread,
    },
    FlatField {
        name: "body",
        sort: FlatSort::Child,
    },
];

pub static FUNCTION_BODY: [FlatField; 2] = [
    FlatField {
        name: "directives",
        sort: FlatSort::List,
    },
    FlatField {
        name: "statements",
        sort: FlatSort::List,
    },
];

pub static ARROW_FUNCTION_EXPRESSION: [FlatField; 7] = [
    FlatField {
        name: "is_async",
        sort: FlatSort::Flag,
    },
    FlatField {
        name: "pure",
        sort: FlatSort::Flag,
    },
    FlatField {
        name: "pife",
        sort: FlatSort::Flag,
    },
    FlatField {
        name: "type_parameters",
        sort: FlatSort::Unread,
    },
    FlatField {
        name: "params",
        sort: FlatSort::Child,
    },
    FlatField {
        name: "return_type",
        sort: FlatSort::Unread,
    },
    FlatField {
        name: "body",
        sort: FlatSort::Child,
    },
];

pub static AWAIT_EXPRESSION: [FlatField; 1] = [FlatField {
    name: "argument",
    sort: FlatSort::Child,
}];

pub static YIELD_EXPRESSION: [FlatField; 2] = [
    FlatField {
        name: "delegate",
        sort: FlatSort::Flag,
    },
    FlatField {
        name: "argument",
        sort: FlatSort::Child,
    },
];
