// Generated from tools/nodes/table.txt; edit that and run tools/nodes/generate.
// Fields of rows: expressions (ECMA-262, clause 13).

use crate::names::{FlatField, FlatSort};

pub static IDENTIFIER_REFERENCE: [FlatField; 2] = [
    FlatField {
        name: "name",
        sort: FlatSort::Text,
    },
    FlatField {
        name: "reference",
        sort: FlatSort::Number,
    },
];

pub static BOOLEAN_LITERAL: [FlatField; 1] = [FlatField {
    name: "value",
    sort: FlatSort::Flag,
}];

pub static NUMERIC_LITERAL: [FlatField; 4] = [
    FlatField {
        name: "kind",
        sort: FlatSort::Word(&["whole", "raw"]),
    },
    FlatField {
        name: "negative",
        sort: FlatSort::Flag,
    },
    FlatField {
        name: "digits",
        sort: FlatSort::Digits,
    },
    FlatField {
        name: "text",
        sort: FlatSort::Text,
    },
];

pub static BIG_INT_LITERAL: [FlatField; 1] = [FlatField {
    name: "value",
    sort: FlatSort::Text,
}];

pub static STRING_LITERAL: [FlatField; 1] = [FlatField {
    name: "value",
    sort: FlatSort::Units,
}];

pub static REG_EXP_LITERAL: [FlatField; 2] = [
    FlatField {
        name: "pattern",
        sort: FlatSort::Text,
    },
    FlatField {
        name: "flags",
        sort: FlatSort::Text,
    },
];

pub static PARENTHESIZED_EXPRESSION: [FlatField; 1] = [FlatField {
    name: "expression",
    sort: FlatSort::Child,
}];

pub static BINARY_EXPRESSION: [FlatField; 3] = [
    FlatField {
        name: "operator",
        sort: FlatSort::Word(&[
            "==",
            "!=",
            "===",
            "!==",
            "<",
            "<=",
            ">",
            ">=",
            "+",
            "-",
            "*",
            "/",
            "%",
            "**",
            "<<",
            ">>",
            ">>>",
            "|",
            "^",
            "&",
            "in",
            "instanceof",
        ]),
    },
    FlatField {
        name: "left",
        sort: FlatSort::Child,
    },
    FlatField {
        name: "right",
        sort: FlatSort::Child,
    },
];

pub static LOGICAL_EXPRESSION: [FlatField; 3] = [
    FlatField {
        name: "operator",
        sort: FlatSort::Word(&["||", "&&", "??"]),
    },
    FlatField {
        name: "left",
        sort: FlatSort::Child,
    },
    FlatField {
        name: "right",
        sort: FlatSort::Child,
    },
];

pub static IDENTIFIER_NAME: [FlatField; 1] = [FlatField {
    name: "name",
    sort: FlatSort::Text,
}];

pub static STATIC_MEMBER_EXPRESSION: [FlatField; 3] = [
    FlatField {
        name: "object",
        sort: FlatSort::Child,
    },
    FlatField {
        name: "optional",
        sort: FlatSort::Flag,
    },
    FlatField {
        name: "property",
        sort: FlatSort::Child,
    },
];

pub static COMPUTED_MEMBER_EXPRESSION: [FlatField; 3] = [
    FlatField {
        name: "object",
        sort: FlatSort::Child,
    },
    FlatField {
        name: "optional",
        sort: FlatSort::Flag,
    },
    FlatField {
        name: "expression",
        sort: FlatSort::Child,
    },
];

pub static CALL_EXPRESSION: [FlatField; 5] = [
    FlatField {
        name: "callee",
        sort: FlatSort::Child,
    },
    FlatField {
        name: "type_arguments",
        sort: FlatSort::Unread,
    },
    FlatField {
        name: "arguments",
        sort: FlatSort::List,
    },
    FlatField {
        name: "optional",
        sort: FlatSort::Flag,
    },
    FlatField {
        name: "pure",
        sort: FlatSort::Flag,
    },
];

pub static CHAIN_EXPRESSION: [FlatField; 1] = [FlatField {
    name: "expression",
    sort: FlatSort::Child,
}];
