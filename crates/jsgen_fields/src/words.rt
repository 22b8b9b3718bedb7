// Generated from tools/nodes/table.txt; edit that and run tools/nodes/generate.
// Fields that hold a word.
ghost use Rattle.std.specs.Prelude.{◌≡◌, true, option_map};
ghost use Rattle.jsgen_fields.specs.Given.{row_data};
ghost use Rattle.jsgen_tree.specs.Atom.{no_value, kind_of_comment, content_of_comment, source_kind, declaration_kind, binary_operator, logical_operator, property_kind, unary_operator, update_operator, assignment_operator, kind_of_function, class_form, kind_of_method, kind_of_import, with_keyword};
ghost use Rattle.jsgen_tree.specs.Table.{word};
ghost use Rattle.jsgen_tree.specs.Fields.{kind_of_comment_words, content_of_comment_words, source_kind_words, declaration_kind_words, binary_operator_words, logical_operator_words, property_kind_words, unary_operator_words, update_operator_words, assignment_operator_words, kind_of_function_words, class_form_words, kind_of_method_words, kind_of_import_words, with_keyword_words};
ghost use Rattle.jsgen_fields.specs.Reads.{read_value};
ghost use Rattle.jsgen_fields.specs.Values.{Same, at, field as value_under, word_meaning, words_of_length};

use crate::given::GivenRow;
use crate::values::needed_word;
use crate::{At, InputFault};
use jsgen_syntax::{
    AssignmentOperator, BinaryOperator, LogicalOperator, SourceKind, UnaryOperator, UpdateOperator,
};
use jsgen_tree::{
    ClassKind, CommentContent, CommentKind, FunctionKind, ImportOrExportKind, MethodDefinitionKind,
    PropertyKind, VariableDeclarationKind, WithKeyword,
};

fn kind_of_comment_by_word(word: &str) -> Option<CommentKind>
    ensures { option_map kind_of_comment result ≡ word_meaning kind_of_comment_words word.now }
{
    match word {
        "line" => Some(CommentKind::Line),
        "block" => Some(CommentKind::SingleLineBlock),
        "multiline" => Some(CommentKind::MultiLineBlock),
        "htmlopen" => Some(CommentKind::HtmlOpen),
        "htmlclose" => Some(CommentKind::HtmlClose),
        _ => None,
    }
}

pub fn needed_kind_of_comment(
    number: usize,
    field: usize,
    row: &GivenRow<'_>,
    name: &str,
) -> Result<CommentKind, InputFault>
    ensures { Same (λ o. kind_of_comment o) result
        (read_value (at number field) true no_value (word kind_of_comment_words) (value_under name.now (row_data row.now))) }
{
    match needed_word(number, field, row, name) {
        Ok(word) => match kind_of_comment_by_word(word) {
            Some(found) => Ok(found),
            None => Err(InputFault::Wrong(At::of_row(number, field))),
        },
        Err(fault) => Err(fault),
    }
}

fn content_of_comment_of_length_4(word: &str) -> Option<CommentContent>
    ensures { option_map content_of_comment result ≡ word_meaning (words_of_length 4 content_of_comment_words) word.now }
{
    match word {
        "pure" => Some(CommentContent::Pure),
        "vite" => Some(CommentContent::Vite),
        _ => None,
    }
}

fn content_of_comment_of_length_5(word: &str) -> Option<CommentContent>
    ensures { option_map content_of_comment result ≡ word_meaning (words_of_length 5 content_of_comment_words) word.now }
{
    match word {
        "legal" => Some(CommentContent::Legal),
        "jsdoc" => Some(CommentContent::Jsdoc),
        _ => None,
    }
}

fn content_of_comment_of_length_6(word: &str) -> Option<CommentContent>
    ensures { option_map content_of_comment result ≡ word_meaning (words_of_length 6 content_of_comment_words) word.now }
{
    match word {
        "normal" => Some(CommentContent::Normal),
        _ => None,
    }
}

fn content_of_comment_of_length_7(word: &str) -> Option<CommentContent>
    ensures { option_map content_of_comment result ≡ word_meaning (words_of_length 7 content_of_comment_words) word.now }
{
    match word {
        "webpack" => Some(CommentContent::Webpack),
        _ => None,
    }
}

fn content_of_comment_of_length_8(word: &str) -> Option<CommentContent>
    ensures { option_map content_of_comment result ≡ word_meaning (words_of_length 8 content_of_comment_words) word.now }
{
    match word {
        "coverage" => Some(CommentContent::CoverageIgnore),
        _ => None,
    }
}

fn content_of_comment_of_length_10(word: &str) -> Option<CommentContent>
    ensures { option_map content_of_comment result ≡ word_meaning (words_of_length 10 content_of_comment_words) word.now }
{
    match word {
        "jsdoclegal" => Some(CommentContent::JsdocLegal),
        _ => None,
    }
}

fn content_of_comment_of_length_11(word: &str) -> Option<CommentContent>
    ensures { option_map content_of_comment result ≡ word_meaning (words_of_length 11 content_of_comment_words) word.now }
{
    match word {
        "propertykey" => Some(CommentContent::PropertyKey),
        _ => None,
    }
}

fn content_of_comment_of_length_12(word: &str) -> Option<CommentContent>
    ensures { option_map content_of_comment result ≡ word_meaning (words_of_length 12 content_of_comment_words) word.now }
{
    match word {
        "coveragefile" => Some(CommentContent::CoverageIgnoreFile),
        _ => None,
    }
}

fn content_of_comment_of_length_13(word: &str) -> Option<CommentContent>
    ensures { option_map content_of_comment result ≡ word_meaning (words_of_length 13 content_of_comment_words) word.now }
{
    match word {
        "nosideeffects" => Some(CommentContent::NoSideEffects),
        _ => None,
    }
}

fn content_of_comment_by_word(word: &str) -> Option<CommentContent>
    ensures { option_map content_of_comment result ≡ word_meaning content_of_comment_words word.now }
{
    match word.len() {
        4 => content_of_comment_of_length_4(word),
        5 => content_of_comment_of_length_5(word),
        6 => content_of_comment_of_length_6(word),
        7 => content_of_comment_of_length_7(word),
        8 => content_of_comment_of_length_8(word),
        10 => content_of_comment_of_length_10(word),
        11 => content_of_comment_of_length_11(word),
        12 => content_of_comment_of_length_12(word),
        13 => content_of_comment_of_length_13(word),
        _ => None,
    }
}

pub fn needed_content_of_comment(
    number: usize,
    field: usize,
    row: &GivenRow<'_>,
    name: &str,
) -> Result<CommentContent, InputFault>
    ensures { Same (λ o. content_of_comment o) result
        (read_value (at number field) true no_value (word content_of_comment_words) (value_under name.now (row_data row.now))) }
{
    match needed_word(number, field, row, name) {
        Ok(word) => match content_of_comment_by_word(word) {
            Some(found) => Ok(found),
            None => Err(InputFault::Wrong(At::of_row(number, field))),
        },
        Err(fault) => Err(fault),
    }
}

fn source_kind_by_word(word: &str) -> Option<SourceKind>
    ensures { option_map source_kind result ≡ word_meaning source_kind_words word.now }
{
    match word {
        "module" => Some(SourceKind::Module),
        _ => None,
    }
}

pub fn needed_source_kind(
    number: usize,
    field: usize,
    row: &GivenRow<'_>,
    name: &str,
) -> Result<SourceKind, InputFault>
    ensures { Same (λ o. source_kind o) result
        (read_value (at number field) true no_value (word source_kind_words) (value_under name.now (row_data row.now))) }
{
    match needed_word(number, field, row, name) {
        Ok(word) => match source_kind_by_word(word) {
            Some(found) => Ok(found),
            None => Err(InputFault::Wrong(At::of_row(number, field))),
        },
        Err(fault) => Err(fault),
    }
}

fn declaration_kind_by_word(word: &str) -> Option<VariableDeclarationKind>
    ensures { option_map declaration_kind result ≡ word_meaning declaration_kind_words word.now }
{
    match word {
        "const" => Some(VariableDeclarationKind::Const),
        "let" => Some(VariableDeclarationKind::Let),
        "var" => Some(VariableDeclarationKind::Var),
        _ => None,
    }
}

pub fn needed_declaration_kind(
    number: usize,
    field: usize,
    row: &GivenRow<'_>,
    name: &str,
) -> Result<VariableDeclarationKind, InputFault>
    ensures { Same (λ o. declaration_kind o) result
        (read_value (at number field) true no_value (word declaration_kind_words) (value_under name.now (row_data row.now))) }
{
    match needed_word(number, field, row, name) {
        Ok(word) => match declaration_kind_by_word(word) {
            Some(found) => Ok(found),
            None => Err(InputFault::Wrong(At::of_row(number, field))),
        },
        Err(fault) => Err(fault),
    }
}

fn binary_operator_of_length_1(word: &str) -> Option<BinaryOperator>
    ensures { option_map binary_operator result ≡ word_meaning (words_of_length 1 binary_operator_words) word.now }
{
    match word {
        "<" => Some(BinaryOperator::LessThan),
        ">" => Some(BinaryOperator::GreaterThan),
        "+" => Some(BinaryOperator::Addition),
        "-" => Some(BinaryOperator::Subtraction),
        "*" => Some(BinaryOperator::Multiplication),
        "/" => Some(BinaryOperator::Division),
        "%" => Some(BinaryOperator::Remainder),
        "|" => Some(BinaryOperator::BitwiseOR),
        "^" => Some(BinaryOperator::BitwiseXOR),
        "&" => Some(BinaryOperator::BitwiseAnd),
        _ => None,
    }
}

fn binary_operator_of_length_2(word: &str) -> Option<BinaryOperator>
    ensures { option_map binary_operator result ≡ word_meaning (words_of_length 2 binary_operator_words) word.now }
{
    match word {
        "==" => Some(BinaryOperator::Equality),
        "!=" => Some(BinaryOperator::Inequality),
        "<=" => Some(BinaryOperator::LessEqualThan),
        ">=" => Some(BinaryOperator::GreaterEqualThan),
        "**" => Some(BinaryOperator::Exponential),
        "<<" => Some(BinaryOperator::ShiftLeft),
        ">>" => Some(BinaryOperator::ShiftRight),
        "in" => Some(BinaryOperator::In),
        _ => None,
    }
}

fn binary_operator_of_length_3(word: &str) -> Option<BinaryOperator>
    ensures { option_map binary_operator result ≡ word_meaning (words_of_length 3 binary_operator_words) word.now }
{
    match word {
        "===" => Some(BinaryOperator::StrictEquality),
        "!==" => Some(BinaryOperator::StrictInequality),
        ">>>" => Some(BinaryOperator::ShiftRightZeroFill),
        _ => None,
    }
}

fn binary_operator_of_length_10(word: &str) -> Option<BinaryOperator>
    ensures { option_map binary_operator result ≡ word_meaning (words_of_length 10 binary_operator_words) word.now }
{
    match word {
        "instanceof" => Some(BinaryOperator::Instanceof),
        _ => None,
    }
}

fn binary_operator_by_word(word: &str) -> Option<BinaryOperator>
    ensures { option_map binary_operator result ≡ word_meaning binary_operator_words word.now }
{
    match word.len() {
        1 => binary_operator_of_length_1(word),
        2 => binary_operator_of_length_2(word),
        3 => binary_operator_of_length_3(word),
        10 => binary_operator_of_length_10(word),
        _ => None,
    }
}

pub fn needed_binary_operator(
    number: usize,
    field: usize,
    row: &GivenRow<'_>,
    name: &str,
) -> Result<BinaryOperator, InputFault>
    ensures { Same (λ o. binary_operator o) result
        (read_value (at number field) true no_value (word binary_operator_words) (value_under name.now (row_data row.now))) }
{
    match needed_word(number, field, row, name) {
        Ok(word) => match binary_operator_by_word(word) {
            Some(found) => Ok(found),
            None => Err(InputFault::Wrong(At::of_row(number, field))),
        },
        Err(fault) => Err(fault),
    }
}

fn logical_operator_by_word(word: &str) -> Option<LogicalOperator>
    ensures { option_map logical_operator result ≡ word_meaning logical_operator_words word.now }
{
    match word {
        "||" => Some(LogicalOperator::Or),
        "&&" => Some(LogicalOperator::And),
        "??" => Some(LogicalOperator::Coalesce),
        _ => None,
    }
}

pub fn needed_logical_operator(
    number: usize,
    field: usize,
    row: &GivenRow<'_>,
    name: &str,
) -> Result<LogicalOperator, InputFault>
    ensures { Same (λ o. logical_operator o) result
        (read_value (at number field) true no_value (word logical_operator_words) (value_under name.now (row_data row.now))) }
{
    match needed_word(number, field, row, name) {
        Ok(word) => match logical_operator_by_word(word) {
            Some(found) => Ok(found),
            None => Err(InputFault::Wrong(At::of_row(number, field))),
        },
        Err(fault) => Err(fault),
    }
}

fn property_kind_by_word(word: &str) -> Option<PropertyKind>
    ensures { option_map property_kind result ≡ word_meaning property_kind_words word.now }
{
    match word {
        "init" => Some(PropertyKind::Init),
        "get" => Some(PropertyKind::Get),
        "set" => Some(PropertyKind::Set),
        _ => None,
    }
}

pub fn needed_property_kind(
    number: usize,
    field: usize,
    row: &GivenRow<'_>,
    name: &str,
) -> Result<PropertyKind, InputFault>
    ensures { Same (λ o. property_kind o) result
        (read_value (at number field) true no_value (word property_kind_words) (value_under name.now (row_data row.now))) }
{
    match needed_word(number, field, row, name) {
        Ok(word) => match property_kind_by_word(word) {
            Some(found) => Ok(found),
            None => Err(InputFault::Wrong(At::of_row(number, field))),
        },
        Err(fault) => Err(fault),
    }
}

fn unary_operator_of_length_1(word: &str) -> Option<UnaryOperator>
    ensures { option_map unary_operator result ≡ word_meaning (words_of_length 1 unary_operator_words) word.now }
{
    match word {
        "+" => Some(UnaryOperator::UnaryPlus),
        "-" => Some(UnaryOperator::UnaryNegation),
        "!" => Some(UnaryOperator::LogicalNot),
        "~" => Some(UnaryOperator::BitwiseNot),
        _ => None,
    }
}

fn unary_operator_of_length_4(word: &str) -> Option<UnaryOperator>
    ensures { option_map unary_operator result ≡ word_meaning (words_of_length 4 unary_operator_words) word.now }
{
    match word {
        "void" => Some(UnaryOperator::Void),
        _ => None,
    }
}

fn unary_operator_of_length_6(word: &str) -> Option<UnaryOperator>
    ensures { option_map unary_operator result ≡ word_meaning (words_of_length 6 unary_operator_words) word.now }
{
    match word {
        "typeof" => Some(UnaryOperator::Typeof),
        "delete" => Some(UnaryOperator::Delete),
        _ => None,
    }
}

fn unary_operator_by_word(word: &str) -> Option<UnaryOperator>
    ensures { option_map unary_operator result ≡ word_meaning unary_operator_words word.now }
{
    match word.len() {
        1 => unary_operator_of_length_1(word),
        4 => unary_operator_of_length_4(word),
        6 => unary_operator_of_length_6(word),
        _ => None,
    }
}

pub fn needed_unary_operator(
    number: usize,
    field: usize,
    row: &GivenRow<'_>,
    name: &str,
) -> Result<UnaryOperator, InputFault>
    ensures { Same (λ o. unary_operator o) result
        (read_value (at number field) true no_value (word unary_operator_words) (value_under name.now (row_data row.now))) }
{
    match needed_word(number, field, row, name) {
        Ok(word) => match unary_operator_by_word(word) {
            Some(found) => Ok(found),
            None => Err(InputFault::Wrong(At::of_row(number, field))),
        },
        Err(fault) => Err(fault),
    }
}

fn update_operator_by_word(word: &str) -> Option<UpdateOperator>
    ensures { option_map update_operator result ≡ word_meaning update_operator_words word.now }
{
    match word {
        "++" => Some(UpdateOperator::Increment),
        "--" => Some(UpdateOperator::Decrement),
        _ => None,
    }
}

pub fn needed_update_operator(
    number: usize,
    field: usize,
    row: &GivenRow<'_>,
    name: &str,
) -> Result<UpdateOperator, InputFault>
    ensures { Same (λ o. update_operator o) result
        (read_value (at number field) true no_value (word update_operator_words) (value_under name.now (row_data row.now))) }
{
    match needed_word(number, field, row, name) {
        Ok(word) => match update_operator_by_word(word) {
            Some(found) => Ok(found),
            None => Err(InputFault::Wrong(At::of_row(number, field))),
        },
        Err(fault) => Err(fault),
    }
}

fn assignment_operator_of_length_1(word: &str) -> Option<AssignmentOperator>
    ensures { option_map assignment_operator result ≡ word_meaning (words_of_length 1 assignment_operator_words) word.now }
{
    match word {
        "=" => Some(AssignmentOperator::Assign),
        _ => None,
    }
}

fn assignment_operator_of_length_2(word: &str) -> Option<AssignmentOperator>
    ensures { option_map assignment_operator result ≡ word_meaning (words_of_length 2 assignment_operator_words) word.now }
{
    match word {
        "+=" => Some(AssignmentOperator::Addition),
        "-=" => Some(AssignmentOperator::Subtraction),
        "*=" => Some(AssignmentOperator::Multiplication),
        "/=" => Some(AssignmentOperator::Division),
        "%=" => Some(AssignmentOperator::Remainder),
        "|=" => Some(AssignmentOperator::BitwiseOR),
        "^=" => Some(AssignmentOperator::BitwiseXOR),
        "&=" => Some(AssignmentOperator::BitwiseAnd),
        _ => None,
    }
}

fn assignment_operator_of_length_3(word: &str) -> Option<AssignmentOperator>
    ensures { option_map assignment_operator result ≡ word_meaning (words_of_length 3 assignment_operator_words) word.now }
{
    match word {
        "**=" => Some(AssignmentOperator::Exponential),
        "<<=" => Some(AssignmentOperator::ShiftLeft),
        ">>=" => Some(AssignmentOperator::ShiftRight),
        "||=" => Some(AssignmentOperator::LogicalOr),
        "&&=" => Some(AssignmentOperator::LogicalAnd),
        "??=" => Some(AssignmentOperator::LogicalNullish),
        _ => None,
    }
}

fn assignment_operator_of_length_4(word: &str) -> Option<AssignmentOperator>
    ensures { option_map assignment_operator result ≡ word_meaning (words_of_length 4 assignment_operator_words) word.now }
{
    match word {
        ">>>=" => Some(AssignmentOperator::ShiftRightZeroFill),
        _ => None,
    }
}

fn assignment_operator_by_word(word: &str) -> Option<AssignmentOperator>
    ensures { option_map assignment_operator result ≡ word_meaning assignment_operator_words word.now }
{
    match word.len() {
        1 => assignment_operator_of_length_1(word),
        2 => assignment_operator_of_length_2(word),
        3 => assignment_operator_of_length_3(word),
        4 => assignment_operator_of_length_4(word),
        _ => None,
    }
}

pub fn needed_assignment_operator(
    number: usize,
    field: usize,
    row: &GivenRow<'_>,
    name: &str,
) -> Result<AssignmentOperator, InputFault>
    ensures { Same (λ o. assignment_operator o) result
        (read_value (at number field) true no_value (word assignment_operator_words) (value_under name.now (row_data row.now))) }
{
    match needed_word(number, field, row, name) {
        Ok(word) => match assignment_operator_by_word(word) {
            Some(found) => Ok(found),
            None => Err(InputFault::Wrong(At::of_row(number, field))),
        },
        Err(fault) => Err(fault),
    }
}

fn kind_of_function_by_word(word: &str) -> Option<FunctionKind>
    ensures { option_map kind_of_function result ≡ word_meaning kind_of_function_words word.now }
{
    match word {
        "declaration" => Some(FunctionKind::Declaration),
        "expression" => Some(FunctionKind::Expression),
        _ => None,
    }
}

pub fn needed_kind_of_function(
    number: usize,
    field: usize,
    row: &GivenRow<'_>,
    name: &str,
) -> Result<FunctionKind, InputFault>
    ensures { Same (λ o. kind_of_function o) result
        (read_value (at number field) true no_value (word kind_of_function_words) (value_under name.now (row_data row.now))) }
{
    match needed_word(number, field, row, name) {
        Ok(word) => match kind_of_function_by_word(word) {
            Some(found) => Ok(found),
            None => Err(InputFault::Wrong(At::of_row(number, field))),
        },
        Err(fault) => Err(fault),
    }
}

fn class_form_by_word(word: &str) -> Option<ClassKind>
    ensures { option_map class_form result ≡ word_meaning class_form_words word.now }
{
    match word {
        "declaration" => Some(ClassKind::Declaration),
        "expression" => Some(ClassKind::Expression),
        _ => None,
    }
}

pub fn needed_class_form(
    number: usize,
    field: usize,
    row: &GivenRow<'_>,
    name: &str,
) -> Result<ClassKind, InputFault>
    ensures { Same (λ o. class_form o) result
        (read_value (at number field) true no_value (word class_form_words) (value_under name.now (row_data row.now))) }
{
    match needed_word(number, field, row, name) {
        Ok(word) => match class_form_by_word(word) {
            Some(found) => Ok(found),
            None => Err(InputFault::Wrong(At::of_row(number, field))),
        },
        Err(fault) => Err(fault),
    }
}

fn kind_of_method_by_word(word: &str) -> Option<MethodDefinitionKind>
    ensures { option_map kind_of_method result ≡ word_meaning kind_of_method_words word.now }
{
    match word {
        "constructor" => Some(MethodDefinitionKind::Constructor),
        "method" => Some(MethodDefinitionKind::Method),
        "get" => Some(MethodDefinitionKind::Get),
        "set" => Some(MethodDefinitionKind::Set),
        _ => None,
    }
}

pub fn needed_kind_of_method(
    number: usize,
    field: usize,
    row: &GivenRow<'_>,
    name: &str,
) -> Result<MethodDefinitionKind, InputFault>
    ensures { Same (λ o. kind_of_method o) result
        (read_value (at number field) true no_value (word kind_of_method_words) (value_under name.now (row_data row.now))) }
{
    match needed_word(number, field, row, name) {
        Ok(word) => match kind_of_method_by_word(word) {
            Some(found) => Ok(found),
            None => Err(InputFault::Wrong(At::of_row(number, field))),
        },
        Err(fault) => Err(fault),
    }
}

fn kind_of_import_by_word(word: &str) -> Option<ImportOrExportKind>
    ensures { option_map kind_of_import result ≡ word_meaning kind_of_import_words word.now }
{
    match word {
        "value" => Some(ImportOrExportKind::Value),
        _ => None,
    }
}

pub fn needed_kind_of_import(
    number: usize,
    field: usize,
    row: &GivenRow<'_>,
    name: &str,
) -> Result<ImportOrExportKind, InputFault>
    ensures { Same (λ o. kind_of_import o) result
        (read_value (at number field) true no_value (word kind_of_import_words) (value_under name.now (row_data row.now))) }
{
    match needed_word(number, field, row, name) {
        Ok(word) => match kind_of_import_by_word(word) {
            Some(found) => Ok(found),
            None => Err(InputFault::Wrong(At::of_row(number, field))),
        },
        Err(fault) => Err(fault),
    }
}

fn with_keyword_by_word(word: &str) -> Option<WithKeyword>
    ensures { option_map with_keyword result ≡ word_meaning with_keyword_words word.now }
{
    match word {
        "with" => Some(WithKeyword::With),
        _ => None,
    }
}

pub fn needed_with_keyword(
    number: usize,
    field: usize,
    row: &GivenRow<'_>,
    name: &str,
) -> Result<WithKeyword, InputFault>
    ensures { Same (λ o. with_keyword o) result
        (read_value (at number field) true no_value (word with_keyword_words) (value_under name.now (row_data row.now))) }
{
    match needed_word(number, field, row, name) {
        Ok(word) => match with_keyword_by_word(word) {
            Some(found) => Ok(found),
            None => Err(InputFault::Wrong(At::of_row(number, field))),
        },
        Err(fault) => Err(fault),
    }
}
