// Generated from tools/nodes/table.txt; edit that and run tools/nodes/generate.
// Fields of rows: programs, statements and declarations (ECMA-262, clauses 14 and 16).

use crate::names::{FlatField, FlatSort};

pub static PROGRAM: [FlatField; 8] = [
    FlatField {
        name: "source",
        sort: FlatSort::Text,
    },
    FlatField {
        name: "kind",
        sort: FlatSort::Word(&["module"]),
    },
    FlatField {
        name: "jsx",
        sort: FlatSort::Unread,
    },
    FlatField {
        name: "typescript",
        sort: FlatSort::Unread,
    },
    FlatField {
        name: "comments",
        sort: FlatSort::List,
    },
    FlatField {
        name: "hashbang",
        sort: FlatSort::Child,
    },
    FlatField {
        name: "directives",
        sort: FlatSort::List,
    },
    FlatField {
        name: "body",
        sort: FlatSort::List,
    },
];

pub static COMMENT: [FlatField; 6] = [
    FlatField {
        name: "kind",
        sort: FlatSort::Word(&["line", "block", "multiline", "htmlopen", "htmlclose"]),
    },
    FlatField {
        name: "content",
        sort: FlatSort::Word(&[
            "normal",
            "legal",
            "jsdoc",
            "jsdoclegal",
            "pure",
            "nosideeffects",
            "webpack",
            "vite",
            "propertykey",
            "coverage",
            "coveragefile",
        ]),
    },
    FlatField {
        name: "leading",
        sort: FlatSort::Flag,
    },
    FlatField {
        name: "attached_to",
        sort: FlatSort::Number,
    },
    FlatField {
        name: "preceded_by_newline",
        sort: FlatSort::Flag,
    },
    FlatField {
        name: "followed_by_newline",
        sort: FlatSort::Flag,
    },
];

pub static DIRECTIVE: [FlatField; 1] = [FlatField {
    name: "directive",
    sort: FlatSort::Text,
}];

pub static VARIABLE_DECLARATION: [FlatField; 3] = [
    FlatField {
        name: "kind",
        sort: FlatSort::Word(&["const", "let", "var"]),
    },
    FlatField {
        name: "declare",
        sort: FlatSort::Unread,
    },
    FlatField {
        name: "declarations",
        sort: FlatSort::List,
    },
];

pub static VARIABLE_DECLARATOR: [FlatField; 4] = [
    FlatField {
        name: "id",
        sort: FlatSort::Child,
    },
    FlatField {
        name: "definite",
        sort: FlatSort::Unread,
    },
    FlatField {
        name: "type_annotation",
        sort: FlatSort::Unread,
    },
    FlatField {
        name: "init",
        sort: FlatSort::Child,
    },
];

pub static BINDING_IDENTIFIER: [FlatField; 2] = [
    FlatField {
        name: "name",
        sort: FlatSort::Text,
    },
    FlatField {
        name: "symbol",
        sort: FlatSort::Number,
    },
];

pub static EXPRESSION_STATEMENT: [FlatField; 1] = [FlatField {
    name: "expression",
    sort: FlatSort::Child,
}];

pub static BLOCK_STATEMENT: [FlatField; 1] = [FlatField {
    name: "body",
    sort: FlatSort::List,
}];

pub static IF_STATEMENT: [FlatField; 3] = [
    FlatField {
        name: "test",
        sort: FlatSort::Child,
    },
    FlatField {
        name: "consequent",
        sort: FlatSort::Child,
    },
    FlatField {
        name: "alternate",
        sort: FlatSort::Child,
    },
];
