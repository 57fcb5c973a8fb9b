//! The pages that are the same for every call: the help, and the version.
ghost use Rattle.std.specs.Prelude.{◌≡◌};
ghost use Rattle.flow_words.specs.Pages.{help_lines, text_of, version_lines};

const HELP: &[u8] = b"flow NETFILE [WORD=TEXT ..]  runs the network of the file, and prints a report
flow --check NETFILE         prints the file in its plain spelling; nothing runs
flow --determinate NETFILE   tells whether each run on the same files ends alike
flow --replay FILE NETFILE   makes the turns of the journal in FILE again
flow --make N                runs the network that is made from N, from 1 to 100
flow --texts NETFILE         lists the network's words, and what each may be
flow --kinds                 prints the kinds of processes, with their ports
flow --help, -h; --version   prints this page, or which version this is
flow -- NETFILE              is flow NETFILE for a name that begins with -

Options of a run:
--workers N     N workers run it, a thread each: 1 to 32, or 0; also with --make
--journal FILE  writes the journal of the run to FILE, for --replay
--tapes FILE    writes the tapes of components of your own; --replay reads them
--report FILE   writes the report to FILE, and prints nothing of it
--quiet         says nothing of a run that finished with nothing left
--brief         of what is left names ten packets, and tells how many more; with
                --report FILE this goes to the standard error
--progress      tells on the standard error how far the run is

Status: 0 finished, 1 packets are left, 2 words refused, 3 network refused,
4 stuck, 5 a process failed, 6 read fault, 7 write fault, 8 no memory,
9 too long, 10 journal refused, 11 a replay could go on, 12 tapes refused.
Read on in docs/NETWORKS.md, docs/RUNS.md and docs/FORMATS.md.
";

/// What the program can be asked for, on one screen.
pub fn help_page() -> &'static [u8]
    ensures { result.now ≡ text_of help_lines }
{
    HELP
}

/// Which version of the program this is, and of which versions its network files are.
pub fn version_line() -> &'static [u8]
    ensures { result.now ≡ text_of version_lines }
{
    b"flow 1.0.0, for network files of the versions 1, 2 and 3\n"
}
