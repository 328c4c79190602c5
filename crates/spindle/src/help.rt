// The commands, each with an example.

// The page of help.
const PAGE: &str = "spindle TABLE
    the report: each shared condition of the table as it is found
    spindle examples/orchards.pla
spindle image TABLE FILE
    writes to FILE the image of the table's network with its shared conditions
    spindle image examples/orchards.pla orchards.image
spindle blif TABLE|IMAGE [FILE]
    the same network as a BLIF text, for programs that take only that; to FILE where there is one
    spindle blif examples/orchards.pla orchards.blif
spindle show IMAGE
    every divisor and output of the image, with its literals
    spindle show orchards.image
spindle ask IMAGE SETTING
    the outputs on one setting: a character for each input, 0 or 1, input 0 first
    spindle ask orchards.image 110100010001000
spindle map FILE
    the dispatcher's map of a table or an image: inputs, conditions, orchards
    spindle map examples/orchards.pla
spindle help
    this page
A file to read may be - for standard input; one whose first word is .model is read as a BLIF text, where a network is asked for.
A table that breaks a rule is answered by one line, refused 2 at line 3 column 7, and standard error shows the line and says why;
an image or a BLIF text that does by refused 12 at line 0";

pub fn help(to: &impl Print) {
    let _ = to.println(PAGE);
}
