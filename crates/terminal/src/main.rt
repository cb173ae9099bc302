// The program that `./run` starts. It is run here on the recorded card files by their names, and on one that stands on standard input.
//
// The 720 files and their lines were made from the card-file paper by a model that shares nothing with this code: its own whole files,
// bundles of certificates as they occur, both sides of every limit, budgets around the exact number of simple paths, and damaged copies,
// chosen so that each of a hundred likely misreadings of the paper gets a line wrong. Those from 0400 to 0479 are about the star: up to 0439
// the leaf would name the host if a star fitted the bare domain. Those from 0480 to 0559 are about attributes in another order. Those from
// 0560 to 0639 are about self-issued certificates: up to 0599 the line would be another if path lengths counted them, from 0600 up the same.
// Those from 0640 up are about how many certificates there may be: up to 0679 the file counts more than 16 in the bundle or more than 32
// roots, from 0680 up no more than those.
#![tactic(auto)]

use window::serve;

fn main(rt: HostRuntime) {
    serve(&rt, &rt.stderr());
}
