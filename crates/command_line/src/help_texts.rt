//! What the help of the program and of each command says after its options: the input, the output, examples and statuses.

/// The end of the help of the program: its input, and where help of a command is.
pub(crate) const PROGRAM_INPUT: &str =
    "The program reads a plant file (TOML), a line --- and a script from standard input:

    plant_script run < script.txt

An option is before the command or after it. `plant_script COMMAND --help` describes a command and has its options.

A line of a script is a message of a modem, `M ADDRESS MESSAGE`, a bandwidth request, `Q ADDRESS SID MINISLOTS`, the
next frame, `T` or `T OPERATOR`, or new slices, `Z FRAME START/LENGTH/BUDGET ..`, one for each operator.

`snapshot` writes the state of the plant after a script. `restore` and `run` go on from it. `resume` also saves and changes
the plant at lines of its input.

Standard error says why the exit status is not 0.

Exit status: 0 success, 2 invalid command line, 3 invalid plant file, 4 invalid line, 5 out of memory, 6 I/O error,
7 internal error of `threads`.";

/// The end of the help of `one`.
pub(crate) const ONE_INPUT: &str = "Standard input: messages in hexadecimal, one a line.
Standard output: for each message the reply, or `S` and the reason why there is none. An accepted
acknowledgement has no line.

    plant_script one < messages.txt

Exit status: 0 success, 4 invalid line, 5 out of memory, 6 I/O error.";

/// The end of the help of `check`: the policies are here, since a plant file is what is checked.
pub(crate) const CHECK_INPUT: &str =
    "Standard input: a plant file, a line --- and a script; the script may be left out.
Standard output: `ok`, or a line `fault:` with the first fault.
Standard error: all faults, each with its line number, and warnings of unknown keys and of plants that cannot work. Warnings
do not change the status.

    plant_script check < script.txt

The key `policy` of an operator orders the grants of its flows:

    policy = \"strict\"
        the greater traffic priority first.
        Of two flows of equal priority, the one with the lower
        SFID goes first, and can starve the other.
    policy = \"aged\"
    step = 10
        as strict, but a flow that waits gains one rank,
        an eighth of a priority, in each `step` frames,
        up to rank 63. At most 255 frames count.
    policy = \"short\"
        the smaller backlog first.

Exit status: 0 success, 3 invalid plant file, 4 invalid line, 5 out of memory, 6 I/O error.";

/// The end of the help of `run`.
pub(crate) const RUN_INPUT: &str =
    "Standard input: a plant file, a line --- and a script. A snapshot may take the plant file's place, which
`plant_script snapshot` writes. Then each line is answered as by `plant_script resume`.
Standard output: `R` for each reply, `S` where there is none, `F` for each frame of an operator, and `MAP` for each MAP.

    plant_script run < script.txt
    sed 's/policy =.*/policy = \"aged\"\\nstep = 10/' script.txt |
        plant_script run

The second command runs the same script with the policy aged in place of strict (`check --help` has the policies).

Exit status: 0 success, 3 invalid plant file, 4 invalid line or refused step, 5 out of memory, 6 I/O error.";

/// The end of the help of `threads`.
pub(crate) const THREADS_INPUT: &str = "Standard input: a plant file, a line --- and a script.
Standard output: as of `run`, but operator by operator, and then the MAPs. It is written when all threads have ended.

    plant_script threads < script.txt

The command is there to run and to check the concurrent code: at the end the program compares what the threads did with the
script. It is slower than `run`.

Exit status: 0 success, 3 invalid plant file, 4 invalid line or refused step, 5 out of memory, 6 I/O error,
7 internal error: the threads did not follow the script.";

/// The end of the help of `capture`.
pub(crate) const CAPTURE_INPUT: &str = "Standard input: a plant file, a line --- and a script.
Standard output: a pcap file of DOCSIS frames, with the messages of the modems, the replies and the MAPs. If a step is
refused, the file ends before it. If the plant file or a line is invalid, a line `fault:` takes the place of the file.

    plant_script capture < script.txt > run.pcap

Exit status: 0 success, 3 invalid plant file, 4 invalid line or refused step, 5 out of memory, 6 I/O error.";

/// The end of the help of `serve`.
pub(crate) const SERVE_INPUT: &str =
    "Standard input: a plant file, a line --- and lines of a script, as long as there are any.
Standard output: as of `run`. The output of a line is flushed before the next line is read.

    (cat plant.toml; echo ---; cat) | plant_script serve

For an invalid line (not a line of a script, a refused step, or more than 4,096 bytes) it prints `fault: line n`, and
for a failed allocation `fault: memory`. It continues with the next line. Lines are counted from 1 after the line ---.
The program keeps no history: its memory does not grow with the number of lines.

With `--state FOLDER` each line is in a journal in FOLDER before it is answered. The next start goes on from the journal.

Exit status: 0 end of the input, 3 invalid plant file, 5 out of memory before the first line, 6 I/O error, or a plant
file that is too long or not UTF-8.";

/// The end of the help of `trace`.
pub(crate) const TRACE_INPUT: &str = "Standard input: a plant file, a line --- and a script.
Standard output: each line of the script. For each of its steps: the check that decided it, with its number and name,
the output, and why there is none. The program keeps the history of each operator in memory, as for `threads`.

    plant_script trace < script.txt

Exit status: 0 success, 3 invalid plant file, 4 invalid line or refused step, 5 out of memory, 6 I/O error.";

/// The end of the help of `history`.
pub(crate) const HISTORY_INPUT: &str = "Standard input: a plant file, a line --- and a script.
Standard output: the history of this operator, a step a line, and no outputs: `M ADDRESS MESSAGE` and
`Q ADDRESS SID MINISLOTS` for what arrived, `W` where the operator handled the first of its inbox, `T` for a frame.

    plant_script history A < script.txt

Exit status: 0 success, 2 unknown operator, 3 invalid plant file, 4 invalid line or refused step, 5 out of memory,
6 I/O error.";

/// The end of the help of `resume`.
pub(crate) const RESUME_INPUT: &str =
    "Standard input: a plant file or a snapshot, a line --- and lines of a script, as long as there are any.
Standard output: as of `serve`. The line K is answered by a snapshot: the state of the plant as text, from the line
`melfjits-snapshot` to the line `end`. In a later run it takes the place of the plant file:

    (cat plant.toml; echo ---; cat lines.txt; echo K) |
        plant_script resume |
        sed -n '/^melfjits-snapshot /,/^end [0-9 ]*$/p' > state
    (cat state; echo ---; cat more.txt) | plant_script resume

`plant_script snapshot` writes the snapshot after the last line alone, without the answers.

The line P begins a plant file, up to the next line ---. The plant in service is changed to that file, and the answer
is `P frame N`: operators go on by their names before frame N, new ones are opened there, and the others leave:

    (echo P; cat new.toml; echo ---)

If the file is invalid or does not fit, the plant stays as it is. The answer is `fault: line n`, n being the number of
the line P, and the reason is written to standard error at once. The lines of the file are counted like other lines.

The line `N n` calls the next frame n, and the answer is `N frame n`. The frames go on from there, with the same times in
their MAPs. If the times would step, the answer is `fault: line n`, and standard error names a number that fits.

While some operators have ticked and others have not, K, P and N are answered by `fault: line n`.

Exit status: 0 end of the input, 3 invalid plant file or snapshot, 5 out of memory before the first line, 6 I/O error,
or a plant file that is too long or not UTF-8.";

/// The end of the help of `restore`.
pub(crate) const RESTORE_INPUT: &str =
    "Standard input: a snapshot, a line --- and lines of a script, as long as there are any.
Standard output: as of `resume`, which answers the lines K, P and N too.

    plant_script snapshot < script.txt > state
    (cat state; echo ---; cat more.txt) | plant_script restore

`restore` is `resume` without the plant file: an input that does not begin with `melfjits-snapshot` is not a snapshot, and
the answer is `fault: snapshot 1`.

Exit status: 0 end of the input, 3 not a snapshot or an invalid one, 5 out of memory before the first line, 6 I/O error.";

/// The end of the help of `snapshot`.
pub(crate) const SNAPSHOT_INPUT: &str =
    "Standard input: a plant file or a snapshot, a line --- and lines of a script. The lines P and N are performed as by `resume`.
Standard output: the snapshot after the last line, and no answers: the state of the plant as text, from the line
`melfjits-snapshot` to the line `end`. In a later run it takes the place of the plant file:

    plant_script snapshot < script.txt > state
    (cat state; echo ---; cat more.txt) | plant_script run

Standard error: why a line P or N is refused, and how many answers were a line `fault:`. They do not change the status.

The plant has to rest after the last line, each operator having ticked as often as the others. Otherwise the output is
`fault: state`, and standard error names an operator.

Exit status: 0 snapshot written, 3 invalid plant file or snapshot, or the plant does not rest after the last line,
5 out of memory, 6 I/O error, or a plant file that is too long or not UTF-8.";
