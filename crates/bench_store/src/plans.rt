//! Lists of workloads, a command line each.

/// Small sizes, which are the default.
pub const SMALL: &str = "\
write n=3000 l=8
write n=2000 l=100
write n=300 l=1000
write n=20 l=20000
open n=1000 q=3
open n=20000 q=3
get_uniform n=5000 q=2000
get_hot n=5000 q=2000 hot=500
get_zipf n=5000 q=2000
get_seq n=5000
iter_raw n=5000
disk_write n=2000 l=100
disk_uniform n=5000 q=2000
disk_hot n=5000 q=2000 hot=500
disk_zipf n=5000 q=2000
disk_seq n=5000
disk_iter n=5000
stack k=10 n=500
stack k=100 n=3";

/// The sizes that are compared.
pub const LARGE: &str = "\
write n=2000000 l=8
write n=200000 l=100
write n=20000 l=1000
write n=1000 l=20000
open n=1000
open n=1000000
get_uniform
get_hot
get_zipf
get_seq
iter_raw
disk_write
disk_uniform
disk_hot
disk_zipf
disk_seq
disk_iter
stack
stack k=1000 n=10";

/// Stores of 10^2 to 10^7 blocks, of one document each.
pub const GROWTH: &str = "\
open n=100 l=8 bs=0 q=2000
open n=1000 l=8 bs=0 q=2000
open n=10000 l=8 bs=0 q=200
open n=100000 l=8 bs=0 q=20
open n=1000000 l=8 bs=0 q=2
open n=10000000 l=8 bs=0 q=1
get_uniform n=100 l=8 bs=0
get_uniform n=1000 l=8 bs=0
get_uniform n=10000 l=8 bs=0
get_uniform n=100000 l=8 bs=0
get_uniform n=1000000 l=8 bs=0
get_uniform n=10000000 l=8 bs=0";
