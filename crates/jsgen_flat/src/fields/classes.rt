// Generated from tools/nodes/table.txt; edit that and run tools/nodes/generate.
// Fields of rows: classes and private names (ECMA-262, 15.7).

use crate::names::{FlatField, FlatSort};

pub static PRIVATE_IDENTIFIER: [FlatField; 1] = [FlatField {
    name: "name",
    sort: FlatSort::Text,
}];

pub static PRIVATE_FIELD_EXPRESSION: [FlatField; 3] = [
    FlatField {
        name: "object",
        sort: FlatSort::Child,
    },
    FlatField {
        name: "optional",
        sort: FlatSort::Flag,
    },
    FlatField {
        name: "field",
        sort: FlatSort::Child,
    },
];

pub static PRIVATE_IN_EXPRESSION: [FlatField; 2] = [
    FlatField {
        name: "left",
        sort: FlatSort::Child,
    },
    FlatField {
        name: "right",
        sort: FlatSort::Child,
    },
];

pub static CLASS: [FlatField; 10] = [
    FlatField {
        name: "kind",
        sort: FlatSort::Word(&["declaration", "expression"]),
    },
    FlatField {
        name: "decorators",
        sort: FlatSort::Unread,
    },
    FlatField {
        name: "id",
        sort: FlatSort::Child,
    },
    FlatField {
        name: "declare",
        sort: FlatSort::Unread,
    },
    FlatField {
        name: "is_abstract",
        sort: FlatSort::Unread,
    },
    FlatField {
        name: "type_parameters",
        sort: FlatSort::Unread,
    },
    FlatField {
        name: "heritage",
        sort: FlatSort::Child,
    },
    FlatField {
        name: "heritage_arguments",
        sort: FlatSort::Unread,
    },
    FlatField {
        name: "implements",
        sort: FlatSort::Unread,
    },
    FlatField {
        name: "body",
        sort: FlatSort::Child,
    },
];

pub static CLASS_BODY: [FlatField; 1] = [FlatField {
    name: "body",
    sort: FlatSort::List,
}];

pub static STATIC_BLOCK: [FlatField; 1] = [FlatField {
    name: "body",
    sort: FlatSort::List,
}];

pub static METHOD_DEFINITION: [FlatField; 10] = [
    FlatField {
        name: "decorators",
        sort: FlatSort::Unread,
    },
    FlatField {
        name: "kind",
        sort: FlatSort::Word(&["constructor", "method", "get", "set"]),
    },
    FlatField {
        name: "key",
        sort: FlatSort::Child,
    },
    FlatField {
        name: "value",
        sort: FlatSort::Child,
    },
    FlatField {
        name: "accessibility",
        sort: FlatSort::Unread,
    },
    FlatField {
        name: "computed",
        sort: FlatSort::Flag,
    },
    FlatField {
        name: "is_static",
        sort: FlatSort::Flag,
    },
    FlatField {
        name: "is_override",
        sort: FlatSort::Unread,
    },
    FlatField {
        name: "is_abstract",
        sort: FlatSort::Unread,
    },
    FlatField {
        name: "optional",
        sort: FlatSort::Unread,
    },
];

pub static PROPERTY_DEFINITION: [FlatField; 13] = [
    FlatField {
        name: "decorators",
        sort: FlatSort::Unread,
    },
    FlatField {
        name: "key",
        sort: FlatSort::Child,
    },
    FlatField {
        name: "accessibility",
        sort: FlatSort::Unread,
    },
    FlatField {
        name: "computed",
        sort: FlatSort::Flag,
    },
    FlatField {
        name: "declare",
        sort: FlatSort::Unread,
    },
    FlatField {
        name: "is_abstract",
        sort: FlatSort::Unread,
    },
    FlatField {
        name: "is_static",
        sort: FlatSort::Flag,
    },
    FlatField {
        name: "is_override",
        sort: FlatSort::Unread,
    },
    FlatField {
        name: "readonly",
        sort: FlatSort::Unread,
    },
    FlatField {
        name: "optional",
        sort: FlatSort::Unread,
    },
    FlatField {
        name: "definite",
        sort: FlatSort::Unread,
    },
    FlatField {
        name: "type_annotation",
        sort: FlatSort::Unread,
    },
    FlatField {
        name: "value",
        sort: FlatSort::Child,
    },
];
