// Generated from tools/nodes/table.txt; edit that and run tools/nodes/generate.
// Fields of rows: imports and exports (ECMA-262, 16.2), and the hashbang of a program (12.5).

use crate::names::{FlatField, FlatSort};

pub static HASHBANG: [FlatField; 1] = [FlatField {
    name: "value",
    sort: FlatSort::Text,
}];

pub static IMPORT_DECLARATION: [FlatField; 5] = [
    FlatField {
        name: "import_kind",
        sort: FlatSort::Word(&["value"]),
    },
    FlatField {
        name: "phase",
        sort: FlatSort::Unread,
    },
    FlatField {
        name: "specifiers",
        sort: FlatSort::List,
    },
    FlatField {
        name: "source",
        sort: FlatSort::Child,
    },
    FlatField {
        name: "with_clause",
        sort: FlatSort::Child,
    },
];

pub static IMPORT_DEFAULT_SPECIFIER: [FlatField; 1] = [FlatField {
    name: "local",
    sort: FlatSort::Child,
}];

pub static IMPORT_NAMESPACE_SPECIFIER: [FlatField; 1] = [FlatField {
    name: "local",
    sort: FlatSort::Child,
}];

pub static IMPORT_SPECIFIER: [FlatField; 3] = [
    FlatField {
        name: "import_kind",
        sort: FlatSort::Word(&["value"]),
    },
    FlatField {
        name: "imported",
        sort: FlatSort::Child,
    },
    FlatField {
        name: "local",
        sort: FlatSort::Child,
    },
];

pub static WITH_CLAUSE: [FlatField; 2] = [
    FlatField {
        name: "keyword",
        sort: FlatSort::Word(&["with"]),
    },
    FlatField {
        name: "entries",
        sort: FlatSort::List,
    },
];

pub static IMPORT_ATTRIBUTE: [FlatField; 2] = [
    FlatField {
        name: "key",
        sort: FlatSort::Child,
    },
    FlatField {
        name: "value",
        sort: FlatSort::Child,
    },
];

pub static EXPORT_DECLARATION: [FlatField; 1] = [FlatField {
    name: "declaration",
    sort: FlatSort::Child,
}];

pub static EXPORT_NAMED_DECLARATION: [FlatField; 2] = [
    FlatField {
        name: "export_kind",
        sort: FlatSort::Word(&["value"]),
    },
    FlatField {
        name: "specifiers",
        sort: FlatSort::List,
    },
];

pub static EXPORT_FROM_DECLARATION: [FlatField; 4] = [
    FlatField {
        name: "export_kind",
        sort: FlatSort::Word(&["value"]),
    },
    FlatField {
        name: "specifiers",
        sort: FlatSort::List,
    },
    FlatField {
        name: "source",
        sort: FlatSort::Child,
    },
    FlatField {
        name: "with_clause",
        sort: FlatSort::Child,
    },
];

pub static EXPORT_SPECIFIER: [FlatField; 3] = [
    FlatField {
        name: "export_kind",
        sort: FlatSort::Word(&["value"]),
    },
    FlatField {
        name: "local",
        sort: FlatSort::Child,
    },
    FlatField {
        name: "exported",
        sort: FlatSort::Child,
    },
];

pub static EXPORT_ALL_DECLARATION: [FlatField; 4] = [
    FlatField {
        name: "export_kind",
        sort: FlatSort::Word(&["value"]),
    },
    FlatField {
        name: "exported",
        sort: FlatSort::Child,
    },
    FlatField {
        name: "source",
        sort: FlatSort::Child,
    },
    FlatField {
        name: "with_clause",
        sort: FlatSort::Child,
    },
];

pub static EXPORT_DEFAULT_DECLARATION: [FlatField; 1] = [FlatField {
    name: "declaration",
    sort: FlatSort::Child,
}];
