// Generated from tools/nodes/table.txt; edit that and run tools/nodes/generate.
// Fields of rows: templates and import calls (ECMA-262, 13.2.8, 13.3.10 and 13.3.11).

use crate::names::{FlatField, FlatSort};

pub static TEMPLATE_ELEMENT: [FlatField; 2] = [
    FlatField {
        name: "raw",
        sort: FlatSort::Text,
    },
    FlatField {
        name: "cooked",
        sort: FlatSort::Units,
    },
];

pub static TEMPLATE_LITERAL: [FlatField; 2] = [
    FlatField {
        name: "quasis",
        sort: FlatSort::List,
    },
    FlatField {
        name: "expressions",
        sort: FlatSort::List,
    },
];

pub static TAGGED_TEMPLATE_EXPRESSION: [FlatField; 3] = [
    FlatField {
        name: "tag",
        sort: FlatSort::Child,
    },
    FlatField {
        name: "type_arguments",
        sort: FlatSort::Unread,
    },
    FlatField {
        name: "quasi",
        sort: FlatSort::Child,
    },
];

pub static IMPORT_EXPRESSION: [FlatField; 3] = [
    FlatField {
        name: "phase",
        sort: FlatSort::Unread,
    },
    FlatField {
        name: "source",
        sort: FlatSort::Child,
    },
    FlatField {
        name: "options",
        sort: FlatSort::Child,
    },
];
