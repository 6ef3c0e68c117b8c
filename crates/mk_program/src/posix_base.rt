//! The base makefile of `--posix-base`.
ghost use Rattle.std.specs.Prelude.{◌≡◌};
ghost use Rattle.mk_program.specs.PosixBase as spec;

/// The rules and macros that POSIX.1-2024 lists (XCU make, "Default Rules"): the text of `share/posix-base.mk`.
pub(crate) fn posix_base() -> &'static [u8]
    ensures { result.now ≡ spec.posix_base }
{
    b"\
# The default rules of POSIX.1-2024 make (XCU make, \"Default Rules\"): the base makefile of `race .. --posix-base`.\n\
# The commands are never read by race; they stand here so that a make can run this file too.\n\
#\n\
# Left out, since race does not read it: the rules and suffixes of SCCS files (.c~ .y~ .l~ .sh~) with the macros GET,\n\
# GFLAGS, SCCSFLAGS and SCCSGETFLAGS. Members of archives, lib(member), are not read either: the rule .c.a stands here\n\
# for plain names alone. POSIX.1-2024 has no Fortran compiler, so there are no rules of .f.\n\
#\n\
# Inference takes one step: prog comes from prog.c if that is listed or a target, but not by way of a prog.c that\n\
# would first be made from prog.y.\n\
\n\
# suffixes and macros\n\
\n\
.SUFFIXES: .o .c .y .l .a .sh\n\
\n\
MAKE=make\n\
AR=ar\n\
ARFLAGS=-rv\n\
YACC=yacc\n\
YFLAGS=\n\
LEX=lex\n\
LFLAGS=\n\
LDFLAGS=\n\
CC=c17\n\
CFLAGS=-O 1\n\
\n\
# single suffix rules\n\
\n\
.c:\n\
\t$(CC) $(CFLAGS) $(LDFLAGS) -o $@ $<\n\
\n\
.sh:\n\
\tcp $< $@\n\
\tchmod a+x $@\n\
\n\
# double suffix rules\n\
\n\
.c.o:\n\
\t$(CC) $(CFLAGS) -c $<\n\
\n\
.y.o:\n\
\t$(YACC) $(YFLAGS) $<\n\
\t$(CC) $(CFLAGS) -c y.tab.c\n\
\trm -f y.tab.c\n\
\tmv y.tab.o $@\n\
\n\
.l.o:\n\
\t$(LEX) $(LFLAGS) $<\n\
\t$(CC) $(CFLAGS) -c lex.yy.c\n\
\trm -f lex.yy.c\n\
\tmv lex.yy.o $@\n\
\n\
.y.c:\n\
\t$(YACC) $(YFLAGS) $<\n\
\tmv y.tab.c $@\n\
\n\
.l.c:\n\
\t$(LEX) $(LFLAGS) $<\n\
\tmv lex.yy.c $@\n\
\n\
.c.a:\n\
\t$(CC) -c $(CFLAGS) $<\n\
\t$(AR) $(ARFLAGS) $@ $*.o\n\
\trm -f $*.o\n\
"
}
