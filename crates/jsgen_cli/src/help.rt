/// What `--help` says: each line of the text is a line of it. `./jsgen` at the top of the repository prints these lines too.
pub const HELP: &str =
    r#"usage: jsgen print [FILE]     prints the program of a job, from FILE or from standard input
       jsgen map [FILE]       prints the lines of its source map, where the job has a path for one
       jsgen legal [FILE]     prints where its licences stand in its source, where they belong in a file of their own
       jsgen check [FILE]     says whether it would be printed, and prints nothing
       jsgen --help           prints this, and so does -h
       jsgen --version        prints the version

A job is a syntax tree in JSON: its nodes as rows, children first, the Program last. This one gives "f;":

  {"options":{"minify":true},"rows":[
  {"type":"IdentifierReference","name":"f"},
  {"type":"ExpressionStatement","expression":0},
  {"type":"Program","kind":"module","body":[1]}
  ]}

Exit status: 0 done, 1 the tree breaks a rule, 2 faulty command line, 3 no job, 4 or 5 a read or a write failed,
6 memory ran out, 7 the input is too long. Under each but 0 a line on standard error says what was wrong.

In the repository of jsgen docs/FORMAT.md has the format, and docs/job.schema.json a JSON Schema of it.
"#;

/// What `--version` says. The version is that of the package for node.
pub const VERSION: &str = "jsgen 0.1.0, jobs of format 1\n";
